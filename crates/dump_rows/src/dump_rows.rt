//! A catalogue's book, with the rows of its objects.
ghost use Rattle.std.specs.Prelude.{◌≡◌, [], ◌∷◌, ◌++◌, map, option_map, IfOk, OnOk};
ghost use Rattle.std.specs.List.{filter, find};
ghost use Rattle.std.specs.Ordering.{int_eq};
ghost use Rattle.dep_sort.specs.FirstOrder.{in_order};
ghost use Rattle.oid_groups.specs.Orders.{by_number};
ghost use Rattle.cat_names.specs.Lookups.{same_oid};
ghost use Rattle.dump_rows.specs.Rows.{is_check, name_less, checks_among, columns_of, labels_of, table_checks, domain_checks, comments_on, column_at, default_at, default_of, sequence_of, index_of, rewrite_of, view_rewrite};

use crate::at_places::{row_at, rows_at};
use crate::groupings::groupings;
use crate::places::places;
use cat_book::Book;
use cat_names::OidIndex;
use cat_rows::{
    AttrdefRow, AttributeRow, ConstraintRow, DescriptionRow, EnumRow, IndexRow, RewriteRow,
    SequenceRow,
};
use oid_groups::Groups;
use std::alloc::{AllocError, Global};
use std::marker::Model;

/// Rows in groups by the objects that they belong to.
#[derive(Drop)]
pub(crate) struct Groupings {
    /// The columns by their relations and numbers.
    pub(crate) columns: Groups,
    /// The labels by their enums and positions.
    pub(crate) labels: Groups,
    /// The defaults by their tables and the numbers of their columns.
    pub(crate) defaults: Groups,
    /// The constraints by their tables.
    pub(crate) of_tables: Groups,
    /// The constraints by their domains.
    pub(crate) of_domains: Groups,
    /// The comments by the oids of what they are on, and the numbers of columns.
    pub(crate) comments: Groups,
}

/// The oids by which single rows are found.
#[derive(Drop)]
pub(crate) struct Places {
    /// Those of pg_attrdef.
    pub(crate) defaults: OidIndex,
    /// Those of pg_sequence, by their sequences.
    pub(crate) sequences: OidIndex,
    /// Those of pg_index, by their indexes.
    pub(crate) indexes: OidIndex,
    /// Those of pg_rewrite.
    pub(crate) rewrites: OidIndex,
    /// The same, by their views.
    pub(crate) views: OidIndex,
}

/// A catalogue's book, with the rows that its objects are made of found by their objects. A contract sees the catalogue.
#[derive(Drop)]
pub struct DumpRows<'a> {
    book: &'a Book<'a>,
    groups: Groupings,
    places: Places,
}

impl<'a> Model for DumpRows<'a> {
    ghost use Rattle.cat_rows.specs.declared.catalogue.Catalogue.{Catalogue};
    ghost use Rattle.dump_rows.specs.Beside.{AreGroupings, ArePlaces};

    ghost Value = { Catalogue };

    ghost view = { λ r. r.book.now };

    ghost invariant = { λ r. AreGroupings r.book.now r.groups × ArePlaces r.book.now r.places };
}

// Whether a constraint is a check.
fn is_check(row: &ConstraintRow) -> bool
    ensures { result ≡ is_check row.now }
{
    row.contype.byte() == b'c'
}

// Keeps a constraint behind others, where it is a check.
fn keep_check<'r>(
    found: &mut Vec<&'r ConstraintRow>,
    row: &'r ConstraintRow,
) -> Result<(), AllocError>
    ensures { OnOk result (map (λ r. r.now) found.new.items ≡ map (λ r. r.now) found.old.items ++ filter is_check (row.now ∷ [])) }
{
    if is_check(row) {
        found.push(row)?;
    }
    Ok(())
}

// Those of these constraints that are checks.
fn checks<'r>(
    alloc: Global,
    rows: &[&'r ConstraintRow],
) -> Result<Vec<&'r ConstraintRow>, AllocError>
    ensures { IfOk result (λ found. map (λ r. r.now) found.items ≡ filter is_check (map (λ r. r.now) rows.now)) }
{
    let mut found = Vec::new(alloc);
    for row in rows {
        keep_check(&mut found, *row)?;
    }
    Ok(found)
}

// These constraints by their names.
fn by_name<'r>(rows: Vec<&'r ConstraintRow>) -> Result<Vec<&'r ConstraintRow>, AllocError>
    ensures { IfOk result (λ found. map (λ r. r.now) found.items ≡ in_order name_less (map (λ r. r.now) rows.entry.items)) }
{
    let mut rows = rows;
    rows.sort_by(|a, b| a.conname.cmp(&b.conname))?;
    Ok(rows)
}

// Those of these constraints that are checks, by their names.
fn checks_among<'r>(
    alloc: Global,
    rows: &[&'r ConstraintRow],
) -> Result<Vec<&'r ConstraintRow>, AllocError>
    ensures { IfOk result (λ found. map (λ r. r.now) found.items ≡ checks_among (map (λ r. r.now) rows.now)) }
{
    let found = checks(alloc, rows)?;
    by_name(found)
}

// Keeps a comment behind others, where it is on what this system table has.
fn keep_of_class<'r>(
    found: &mut Vec<&'r DescriptionRow>,
    class: u32,
    row: &'r DescriptionRow,
) -> Result<(), AllocError>
    ensures { OnOk result (map (λ r. r.now) found.new.items ≡ map (λ r. r.now) found.old.items ++ filter (λ d. same_oid class d.classoid) (row.now ∷ [])) }
{
    if class == row.classoid {
        found.push(row)?;
    }
    Ok(())
}

// Those of these comments that are on what a system table has.
fn of_class<'r>(
    alloc: Global,
    rows: &[&'r DescriptionRow],
    class: u32,
) -> Result<Vec<&'r DescriptionRow>, AllocError>
    ensures { IfOk result (λ found. map (λ r. r.now) found.items ≡ filter (λ d. same_oid class d.classoid) (map (λ r. r.now) rows.now)) }
{
    let mut found = Vec::new(alloc);
    for row in rows {
        keep_of_class(&mut found, class, *row)?;
    }
    Ok(found)
}

impl<'a> DumpRows<'a> {
    /// This book, with the rows of its catalogue's objects. The only error is that memory ran out.
    pub fn of(alloc: Global, book: &'a Book<'a>) -> Result<DumpRows<'a>, AllocError>
        ensures { IfOk result (λ rows. rows ≡ book.now) }
    {
        let groups = groupings(alloc, book.tables())?;
        let places = places(alloc, book.tables())?;
        Ok(DumpRows {
            book,
            groups,
            places,
        })
    }

    /// The book.
    pub fn book(&self) -> &'a Book<'a>
        ensures { result.now ≡ self.now }
    {
        self.book
    }

    /// The columns of a table or a view, by their numbers.
    pub fn columns_of(
        &self,
        alloc: Global,
        relation: u32,
    ) -> Result<Vec<&'a AttributeRow>, AllocError>
        ensures { IfOk result (λ found. map (λ r. r.now) found.items ≡ columns_of self.now relation) }
    {
        let rows = self.book.tables().pg_attribute.as_slice();
        rows_at(alloc, rows, self.groups.columns.group(relation))
    }

    /// The labels of an enum, by their positions.
    pub fn labels_of(&self, alloc: Global, of: u32) -> Result<Vec<&'a EnumRow>, AllocError>
        ensures { IfOk result (λ found. map (λ r. r.now) found.items ≡ labels_of self.now of) }
    {
        let rows = self.book.tables().pg_enum.as_slice();
        rows_at(alloc, rows, self.groups.labels.group(of))
    }

    // The constraints of a table.
    fn of_table(&self, alloc: Global, table: u32) -> Result<Vec<&'a ConstraintRow>, AllocError>
        ensures { IfOk result (λ found. map (λ r. r.now) found.items ≡ filter (λ c. same_oid table c.conrelid) self.now.pg_constraint) }
    {
        let rows = self.book.tables().pg_constraint.as_slice();
        rows_at(alloc, rows, self.groups.of_tables.group(table))
    }

    /// The checks of a table, by their names.
    pub fn table_checks(
        &self,
        alloc: Global,
        table: u32,
    ) -> Result<Vec<&'a ConstraintRow>, AllocError>
        ensures { IfOk result (λ found. map (λ r. r.now) found.items ≡ table_checks self.now table) }
    {
        let rows = self.of_table(alloc, table)?;
        checks_among(alloc, &rows)
    }

    // The constraints of a domain.
    fn of_domain(&self, alloc: Global, domain: u32) -> Result<Vec<&'a ConstraintRow>, AllocError>
        ensures { IfOk result (λ found. map (λ r. r.now) found.items ≡ filter (λ c. same_oid domain c.contypid) self.now.pg_constraint) }
    {
        let rows = self.book.tables().pg_constraint.as_slice();
        rows_at(alloc, rows, self.groups.of_domains.group(domain))
    }

    /// The checks of a domain, by their names.
    pub fn domain_checks(
        &self,
        alloc: Global,
        domain: u32,
    ) -> Result<Vec<&'a ConstraintRow>, AllocError>
        ensures { IfOk result (λ found. map (λ r. r.now) found.items ≡ domain_checks self.now domain) }
    {
        let rows = self.of_domain(alloc, domain)?;
        checks_among(alloc, &rows)
    }

    // The comments on what has an oid, whatever the system table.
    fn comments_of(&self, alloc: Global, oid: u32) -> Result<Vec<&'a DescriptionRow>, AllocError>
        ensures { IfOk result (λ found. map (λ r. r.now) found.items ≡ by_number (λ d. d.objsubid) (filter (λ d. same_oid oid d.objoid) self.now.pg_description)) }
    {
        let rows = self.book.tables().pg_description.as_slice();
        rows_at(alloc, rows, self.groups.comments.group(oid))
    }

    /// The comments on what a system table has under an oid: on the whole first, then on columns by their numbers.
    pub fn comments_on(
        &self,
        alloc: Global,
        class: u32,
        oid: u32,
    ) -> Result<Vec<&'a DescriptionRow>, AllocError>
        ensures { IfOk result (λ found. map (λ r. r.now) found.items ≡ comments_on self.now class oid) }
    {
        let rows = self.comments_of(alloc, oid)?;
        of_class(alloc, &rows, class)
    }

    /// The column of a relation that has a number; `None` where there is none.
    pub fn column_at(&self, relation: u32, number: i64) -> Option<&'a AttributeRow>
        ensures { option_map (λ r. r.now) result ≡ column_at self.now relation number }
    {
        let rows = self.book.tables().pg_attribute.as_slice();
        row_at(rows, self.groups.columns.first(relation, number))
    }

    /// The default of the column of a table that has a number; `None` where there is none.
    pub fn default_at(&self, table: u32, number: i64) -> Option<&'a AttrdefRow>
        ensures { option_map (λ r. r.now) result ≡ default_at self.now table number }
    {
        let rows = self.book.tables().pg_attrdef.as_slice();
        row_at(rows, self.groups.defaults.first(table, number))
    }

    /// The first default of this oid; `None` where there is none.
    pub fn default_of(&self, oid: u32) -> Option<&'a AttrdefRow>
        ensures { option_map (λ r. r.now) result ≡ default_of self.now oid }
    {
        let rows = self.book.tables().pg_attrdef.as_slice();
        row_at(rows, self.places.defaults.find(oid))
    }

    /// The first row of pg_sequence of a sequence; `None` where there is none.
    pub fn sequence_of(&self, oid: u32) -> Option<&'a SequenceRow>
        ensures { option_map (λ r. r.now) result ≡ sequence_of self.now oid }
    {
        let rows = self.book.tables().pg_sequence.as_slice();
        row_at(rows, self.places.sequences.find(oid))
    }

    /// The first row of pg_index of an index; `None` where there is none.
    pub fn index_of(&self, oid: u32) -> Option<&'a IndexRow>
        ensures { option_map (λ r. r.now) result ≡ index_of self.now oid }
    {
        let rows = self.book.tables().pg_index.as_slice();
        row_at(rows, self.places.indexes.find(oid))
    }

    /// The first rewrite row of this oid; `None` where there is none.
    pub fn rewrite_of(&self, oid: u32) -> Option<&'a RewriteRow>
        ensures { option_map (λ r. r.now) result ≡ rewrite_of self.now oid }
    {
        let rows = self.book.tables().pg_rewrite.as_slice();
        row_at(rows, self.places.rewrites.find(oid))
    }

    /// The first rewrite row of a view; `None` where there is none.
    pub fn view_rewrite(&self, view: u32) -> Option<&'a RewriteRow>
        ensures { option_map (λ r. r.now) result ≡ view_rewrite self.now view }
    {
        let rows = self.book.tables().pg_rewrite.as_slice();
        row_at(rows, self.places.views.find(view))
    }
}

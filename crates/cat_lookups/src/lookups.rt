//! A catalogue whose rows are found without going through its tables.
ghost use Rattle.std.specs.Prelude.{◌≡◌, map, pos, option_map, IfOk};
ghost use Rattle.std.specs.List.{filter, find, slice_get};
ghost use Rattle.oid_groups.specs.Groups.{group_of};
ghost use Rattle.cat_names.specs.Lookups.{same_oid};
ghost use Rattle.cat_book.specs.Leads.{is_key};
ghost use Rattle.cat_lookups.specs.Found.{column_name, table_of_key, table_of_index, constraint_of};
ghost use Rattle.cat_lookups.specs.Beside.{column_keys, check_keys, index_oids, constraint_oids};

use cat_book::{Book, keys};
use cat_names::OidIndex;
use cat_rows::{AttributeRow, Catalogue, ConstraintRow, IndexRow};
use copy_text::Name;
use oid_groups::Groups;
use std::alloc::{AllocError, Global};
use std::marker::Model;
use type_ends::TypeEnds;

/// A catalogue with what its rows are found by. A contract sees the catalogue.
#[derive(Drop)]
pub struct Lookups<'a> {
    cat: &'a Catalogue,
    book: Book<'a>,
    ends: TypeEnds<'a>,
    places: Places,
    keys: KeyRows<'a>,
}

impl<'a> Model for Lookups<'a> {
    ghost use Rattle.cat_rows.specs.declared.catalogue.Catalogue.{Catalogue};
    ghost use Rattle.cat_lookups.specs.Beside.{IsBeside};

    ghost Value = { Catalogue };

    ghost view = { λ l. l.cat.now };

    ghost invariant = { λ l. IsBeside l.cat.now l.book l.ends l.places.columns l.places.checks l.places.indexes l.keys.rows.items l.keys.indexes l.places.constraints };
}

// What the places of rows are found by.
#[derive(Drop)]
struct Places {
    columns: Groups,
    checks: Groups,
    indexes: OidIndex,
    constraints: OidIndex,
}

// The primary keys and unique constraints, with the oids of their indexes.
#[derive(Drop)]
struct KeyRows<'a> {
    rows: Vec<&'a ConstraintRow>,
    indexes: OidIndex,
}

// The relations and numbers of columns.
fn column_keys(alloc: Global, rows: &[AttributeRow]) -> Result<Vec<(u32, i64)>, AllocError>
    ensures { IfOk result (λ keys. keys.items ≡ map (λ a. (a.attrelid, a.attnum)) rows.now) }
{
    rows.iter().map(|a| (a.attrelid, a.attnum)).collect(alloc)
}

// The domains of constraints.
fn check_keys(alloc: Global, rows: &[ConstraintRow]) -> Result<Vec<(u32, i64)>, AllocError>
    ensures { IfOk result (λ keys. keys.items ≡ map (λ c. (c.contypid, pos 0)) rows.now) }
{
    rows.iter().map(|c| (c.contypid, 0)).collect(alloc)
}

// The columns by their relations and numbers.
fn columns_of(alloc: Global, rows: &[AttributeRow]) -> Result<Groups, AllocError>
    ensures { IfOk result (λ columns. columns ≡ map (λ a. (a.attrelid, a.attnum)) rows.now) }
{
    let keys = column_keys(alloc, rows)?;
    Groups::of(alloc, keys)
}

// The constraints by their domains.
fn checks_of(alloc: Global, rows: &[ConstraintRow]) -> Result<Groups, AllocError>
    ensures { IfOk result (λ checks. checks ≡ map (λ c. (c.contypid, pos 0)) rows.now) }
{
    let keys = check_keys(alloc, rows)?;
    Groups::of(alloc, keys)
}

// The oids of indexes.
fn indexes_of(alloc: Global, rows: &[IndexRow]) -> Result<OidIndex, AllocError>
    ensures { IfOk result (λ oids. oids ≡ map (λ i. i.indexrelid) rows.now) }
{
    let oids: Vec<u32> = rows.iter().map(|i| i.indexrelid).collect(alloc)?;
    OidIndex::of(alloc, &oids)
}

// The oids of the indexes of keys.
fn key_indexes_of(alloc: Global, keys: &[&ConstraintRow]) -> Result<OidIndex, AllocError>
    ensures { IfOk result (λ oids. oids ≡ map (λ k. k.now.conindid) keys.now) }
{
    let oids: Vec<u32> = keys.iter().map(|k| k.conindid).collect(alloc)?;
    OidIndex::of(alloc, &oids)
}

// The oids of constraints.
fn constraints_of(alloc: Global, rows: &[ConstraintRow]) -> Result<OidIndex, AllocError>
    ensures { IfOk result (λ oids. oids ≡ map (λ c. c.oid) rows.now) }
{
    let oids: Vec<u32> = rows.iter().map(|c| c.oid).collect(alloc)?;
    OidIndex::of(alloc, &oids)
}

// What the places of a catalogue's rows are found by.
fn places_of(alloc: Global, cat: &Catalogue) -> Result<Places, AllocError>
    ensures columns { IfOk result (λ places. places.columns ≡ column_keys cat.now) }
    ensures checks { IfOk result (λ places. places.checks ≡ check_keys cat.now) }
    ensures indexes { IfOk result (λ places. places.indexes ≡ index_oids cat.now) }
    ensures constraints { IfOk result (λ places. places.constraints ≡ constraint_oids cat.now) }
{
    let columns = columns_of(alloc, cat.pg_attribute.as_slice())?;
    let checks = checks_of(alloc, cat.pg_constraint.as_slice())?;
    let indexes = indexes_of(alloc, cat.pg_index.as_slice())?;
    let constraints = constraints_of(alloc, cat.pg_constraint.as_slice())?;
    Ok(Places {
        columns,
        checks,
        indexes,
        constraints,
    })
}

// The keys among constraints.
fn key_rows(alloc: Global, rows: &[ConstraintRow]) -> Result<KeyRows<'_>, AllocError>
    ensures rows { IfOk result (λ found. map (λ k. k.now) found.rows.items ≡ filter is_key rows.now) }
    ensures indexes { IfOk result (λ found. found.indexes ≡ map (λ k. k.now.conindid) found.rows.items) }
{
    let rows = keys(alloc, rows)?;
    let indexes = key_indexes_of(alloc, &rows)?;
    Ok(KeyRows { rows, indexes })
}

impl<'a> Lookups<'a> {
    /// This catalogue, with what its rows are found by. The only error is want of memory.
    pub fn of(alloc: Global, cat: &'a Catalogue) -> Result<Lookups<'a>, AllocError>
        ensures { IfOk result (λ lookups. lookups ≡ cat.now) }
    {
        let places = places_of(alloc, cat)?;
        let keys = key_rows(alloc, cat.pg_constraint.as_slice())?;
        let book = Book::of(alloc, cat)?;
        let ends = TypeEnds::of(alloc, &book)?;
        Ok(Lookups {
            cat,
            book,
            ends,
            places,
            keys,
        })
    }

    /// The tables of the catalogue.
    pub fn tables(&self) -> &'a Catalogue
        ensures { result.now ≡ self.now }
    {
        self.cat
    }

    /// The catalogue by oids and paths.
    pub fn book(&self) -> &Book<'a>
        ensures { result.now ≡ self.now }
    {
        &self.book
    }

    /// What types are at the ends of their chains.
    pub fn ends(&self) -> &TypeEnds<'a>
        ensures { result.now ≡ self.now }
    {
        &self.ends
    }

    /// The places of a relation's columns among all, by rising numbers.
    pub fn column_places(&self, relation: u32) -> &[usize]
        ensures { result.now ≡ group_of (column_keys self.now) relation }
    {
        self.places.columns.group(relation)
    }

    /// The places of a domain's constraints among all.
    pub fn check_places(&self, domain: u32) -> &[usize]
        ensures { result.now ≡ group_of (check_keys self.now) domain }
    {
        self.places.checks.group(domain)
    }

    /// The name of a relation's column of this number; `None` where there is none.
    pub fn column_name(&self, relation: u32, number: i64) -> Option<&'a Name>
        ensures { option_map (λ n. n.now) result ≡ column_name self.now relation number }
    {
        match self.places.columns.first(relation, number) {
            Some(place) => name_at(self.cat.pg_attribute.as_slice(), place),
            None => None,
        }
    }

    /// The table of an index: that of its row, or of the key that it belongs to.
    pub fn table_of_index(&self, oid: u32) -> Option<u32>
        ensures { result ≡ table_of_index self.now oid }
    {
        match self.table_by_row(oid) {
            Some(table) => Some(table),
            None => self.table_of_key(oid),
        }
    }

    // The table of the index of this oid among those of pg_index.
    fn table_by_row(&self, oid: u32) -> Option<u32>
        ensures { result ≡ option_map (λ i. i.indrelid) (find (λ i. same_oid oid i.indexrelid) self.now.pg_index) }
    {
        match self.places.indexes.find(oid) {
            Some(place) => table_at(self.cat.pg_index.as_slice(), place),
            None => None,
        }
    }

    // The table of the key that has this index.
    fn table_of_key(&self, index: u32) -> Option<u32>
        ensures { result ≡ table_of_key self.now index }
    {
        match self.keys.indexes.find(index) {
            Some(place) => key_table_at(&self.keys.rows, place),
            None => None,
        }
    }

    /// The first constraint of this oid; `None` where there is none.
    pub fn constraint_of(&self, oid: u32) -> Option<&'a ConstraintRow>
        ensures { option_map (λ c. c.now) result ≡ constraint_of self.now oid }
    {
        match self.places.constraints.find(oid) {
            Some(place) => constraint_at(self.cat.pg_constraint.as_slice(), place),
            None => None,
        }
    }
}

// The name of the column at a place.
fn name_at(rows: &[AttributeRow], place: usize) -> Option<&Name>
    ensures { option_map (λ n. n.now) result ≡ option_map (λ a. a.attname) (slice_get rows.now place) }
{
    match rows.get(place) {
        Some(row) => Some(&row.attname),
        None => None,
    }
}

// The table of the index at a place.
fn table_at(rows: &[IndexRow], place: usize) -> Option<u32>
    ensures { result ≡ option_map (λ i. i.indrelid) (slice_get rows.now place) }
{
    match rows.get(place) {
        Some(row) => Some(row.indrelid),
        None => None,
    }
}

// The table of the key at a place.
fn key_table_at(keys: &[&ConstraintRow], place: usize) -> Option<u32>
    ensures { result ≡ option_map (λ k. k.now.conrelid) (slice_get keys.now place) }
{
    match keys.get(place) {
        Some(key) => Some(key.conrelid),
        None => None,
    }
}

// The constraint at a place.
fn constraint_at(rows: &[ConstraintRow], place: usize) -> Option<&ConstraintRow>
    ensures { option_map (λ c. c.now) result ≡ slice_get rows.now place }
{
    match rows.get(place) {
        Some(row) => Some(row),
        None => None,
    }
}

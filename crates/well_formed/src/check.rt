//! The check of all tables.
ghost use Rattle.std.specs.Prelude.{◌≡◌, IfOk};
ghost use Rattle.cat_names.specs.Findings.{in_table, fault_before};
ghost use Rattle.cat_names.specs.Gives.{GivesTable};
ghost use Rattle.cat_rows.specs.declared.table.SysTable.TheVariants as on;
ghost use Rattle.well_formed.specs.Catalogues.{table_fault, first_in, catalogue_fault, cluster, objects, columns, own_rows, notes};

use cat_book::{Book, check_lines};
use cat_names::{CheckError, at_table};
use cat_rows::{Catalogue, SysTable};
use constraint_table::{Beside, Constraints};
use plain_tables::{Comments, Databases, Depends, Labels, Members, Relations, Roles, Schemas};
use std::alloc::{AllocError, Global};
use std::marker::Model;
use text_tables::{Columns, Defaults, Indexes, Sequences, Types, Views};

/// A catalogue of which each table's rows meet its conditions. A contract sees the catalogue.
#[derive(Drop)]
pub struct WellFormed {
    cat: Catalogue,
}

impl Model for WellFormed {
    ghost use Rattle.std.specs.Prelude.{◌≡◌, None};
    ghost use Rattle.cat_rows.specs.declared.catalogue.Catalogue.{Catalogue};
    ghost use Rattle.well_formed.specs.Catalogues.{catalogue_fault};

    ghost Value = { Catalogue };

    ghost view = { λ w. w.cat };

    ghost invariant = { λ w. catalogue_fault w.cat ≡ None };
}

impl WellFormed {
    /// The catalogue, where it is well-formed; else `Fault` is the first fault: of the first table that has one, in the
    /// order in which the tables are listed, the first line, and there the first kind. `Memory` may be answered for any
    /// catalogue.
    pub fn check(alloc: Global, cat: Catalogue) -> Result<WellFormed, CheckError>
        ensures fault { GivesTable result (catalogue_fault cat) }
        ensures same { IfOk result (λ checked. checked ≡ cat) }
    {
        check_tables(alloc, &cat)?;
        Ok(WellFormed { cat })
    }

    /// The rows of its tables.
    pub fn rows(&self) -> &Catalogue
        ensures { result.now ≡ self.now }
    {
        &self.cat
    }

    /// What leads where among its rows, made in time near linear. It borrows from the rows, so whoever needs it makes
    /// it once, beside them.
    pub fn book(&self, alloc: Global) -> Result<Book<'_>, AllocError>
        ensures { IfOk result (λ book. book ≡ self.now) }
    {
        Book::of(alloc, &self.cat)
    }
}

#[tactic(auto, unfolding(crate::specs::Catalogues::table_fault))]
fn roles(alloc: Global, book: &Book<'_>) -> Result<(), CheckError>
    ensures { GivesTable result (in_table on.PgAuthid (table_fault book.now on.PgAuthid)) }
{
    let rows = book.tables().pg_authid.as_slice();
    at_table(
        SysTable::PgAuthid,
        check_lines::<Book<'_>, Roles>(alloc, book, rows),
    )
}

#[tactic(auto, unfolding(crate::specs::Catalogues::table_fault))]
fn members(alloc: Global, book: &Book<'_>) -> Result<(), CheckError>
    ensures { GivesTable result (in_table on.PgAuthMembers (table_fault book.now on.PgAuthMembers)) }
{
    let rows = book.tables().pg_auth_members.as_slice();
    at_table(
        SysTable::PgAuthMembers,
        check_lines::<Book<'_>, Members>(alloc, book, rows),
    )
}

#[tactic(auto, unfolding(crate::specs::Catalogues::table_fault))]
fn databases(alloc: Global, book: &Book<'_>) -> Result<(), CheckError>
    ensures { GivesTable result (in_table on.PgDatabase (table_fault book.now on.PgDatabase)) }
{
    let rows = book.tables().pg_database.as_slice();
    at_table(
        SysTable::PgDatabase,
        check_lines::<Book<'_>, Databases>(alloc, book, rows),
    )
}

#[tactic(auto, unfolding(crate::specs::Catalogues::table_fault))]
fn schemas(alloc: Global, book: &Book<'_>) -> Result<(), CheckError>
    ensures { GivesTable result (in_table on.PgNamespace (table_fault book.now on.PgNamespace)) }
{
    let rows = book.tables().pg_namespace.as_slice();
    at_table(
        SysTable::PgNamespace,
        check_lines::<Book<'_>, Schemas>(alloc, book, rows),
    )
}

#[tactic(auto, unfolding(crate::specs::Catalogues::table_fault))]
fn types(alloc: Global, book: &Book<'_>) -> Result<(), CheckError>
    ensures { GivesTable result (in_table on.PgType (table_fault book.now on.PgType)) }
{
    let rows = book.tables().pg_type.as_slice();
    at_table(
        SysTable::PgType,
        check_lines::<Book<'_>, Types>(alloc, book, rows),
    )
}

#[tactic(auto, unfolding(crate::specs::Catalogues::table_fault))]
fn labels(alloc: Global, book: &Book<'_>) -> Result<(), CheckError>
    ensures { GivesTable result (in_table on.PgEnum (table_fault book.now on.PgEnum)) }
{
    let rows = book.tables().pg_enum.as_slice();
    at_table(
        SysTable::PgEnum,
        check_lines::<Book<'_>, Labels>(alloc, book, rows),
    )
}

#[tactic(auto, unfolding(crate::specs::Catalogues::table_fault))]
fn relations(alloc: Global, book: &Book<'_>) -> Result<(), CheckError>
    ensures { GivesTable result (in_table on.PgClass (table_fault book.now on.PgClass)) }
{
    let rows = book.tables().pg_class.as_slice();
    at_table(
        SysTable::PgClass,
        check_lines::<Book<'_>, Relations>(alloc, book, rows),
    )
}

#[tactic(auto, unfolding(crate::specs::Catalogues::table_fault))]
fn attributes(alloc: Global, book: &Book<'_>) -> Result<(), CheckError>
    ensures { GivesTable result (in_table on.PgAttribute (table_fault book.now on.PgAttribute)) }
{
    let rows = book.tables().pg_attribute.as_slice();
    at_table(
        SysTable::PgAttribute,
        check_lines::<Book<'_>, Columns>(alloc, book, rows),
    )
}

#[tactic(auto, unfolding(crate::specs::Catalogues::table_fault))]
fn defaults(alloc: Global, book: &Book<'_>) -> Result<(), CheckError>
    ensures { GivesTable result (in_table on.PgAttrdef (table_fault book.now on.PgAttrdef)) }
{
    let rows = book.tables().pg_attrdef.as_slice();
    at_table(
        SysTable::PgAttrdef,
        check_lines::<Book<'_>, Defaults>(alloc, book, rows),
    )
}

#[tactic(auto, unfolding(crate::specs::Catalogues::table_fault))]
fn indexes(alloc: Global, book: &Book<'_>) -> Result<(), CheckError>
    ensures { GivesTable result (in_table on.PgIndex (table_fault book.now on.PgIndex)) }
{
    let rows = book.tables().pg_index.as_slice();
    at_table(
        SysTable::PgIndex,
        check_lines::<Book<'_>, Indexes>(alloc, book, rows),
    )
}

#[tactic(auto, unfolding(crate::specs::Catalogues::table_fault))]
fn sequences(alloc: Global, book: &Book<'_>) -> Result<(), CheckError>
    ensures { GivesTable result (in_table on.PgSequence (table_fault book.now on.PgSequence)) }
{
    let rows = book.tables().pg_sequence.as_slice();
    at_table(
        SysTable::PgSequence,
        check_lines::<Book<'_>, Sequences>(alloc, book, rows),
    )
}

#[tactic(auto, unfolding(crate::specs::Catalogues::table_fault))]
fn views(alloc: Global, book: &Book<'_>) -> Result<(), CheckError>
    ensures { GivesTable result (in_table on.PgRewrite (table_fault book.now on.PgRewrite)) }
{
    let rows = book.tables().pg_rewrite.as_slice();
    at_table(
        SysTable::PgRewrite,
        check_lines::<Book<'_>, Views>(alloc, book, rows),
    )
}

#[tactic(auto, unfolding(crate::specs::Catalogues::table_fault))]
fn comments(alloc: Global, book: &Book<'_>) -> Result<(), CheckError>
    ensures { GivesTable result (in_table on.PgDescription (table_fault book.now on.PgDescription)) }
{
    let rows = book.tables().pg_description.as_slice();
    at_table(
        SysTable::PgDescription,
        check_lines::<Book<'_>, Comments>(alloc, book, rows),
    )
}

#[tactic(auto, unfolding(crate::specs::Catalogues::table_fault))]
fn depends(alloc: Global, book: &Book<'_>) -> Result<(), CheckError>
    ensures { GivesTable result (in_table on.PgDepend (table_fault book.now on.PgDepend)) }
{
    let rows = book.tables().pg_depend.as_slice();
    at_table(
        SysTable::PgDepend,
        check_lines::<Book<'_>, Depends>(alloc, book, rows),
    )
}

#[tactic(auto, unfolding(crate::specs::Catalogues::table_fault))]
fn constraints(alloc: Global, book: &Book<'_>) -> Result<(), CheckError>
    ensures { GivesTable result (in_table on.PgConstraint (table_fault book.now on.PgConstraint)) }
{
    let beside = Beside::of(alloc, &*book)?;
    let rows = book.tables().pg_constraint.as_slice();
    at_table(
        SysTable::PgConstraint,
        check_lines::<Beside<'_>, Constraints>(alloc, &beside, rows),
    )
}

// Goes on where the roles, memberships, databases and schemas are well-formed.
#[tactic(auto, unfolding(crate::specs::Catalogues::first_in))]
fn check_cluster(alloc: Global, book: &Book<'_>) -> Result<(), CheckError>
    ensures { GivesTable result (first_in book.now cluster) }
{
    roles(alloc, book)?;
    members(alloc, book)?;
    databases(alloc, book)?;
    schemas(alloc, book)?;
    Ok(())
}

// Goes on where the types, labels and relations are well-formed.
#[tactic(auto, unfolding(crate::specs::Catalogues::first_in))]
fn check_objects(alloc: Global, book: &Book<'_>) -> Result<(), CheckError>
    ensures { GivesTable result (first_in book.now objects) }
{
    types(alloc, book)?;
    labels(alloc, book)?;
    relations(alloc, book)?;
    Ok(())
}

// Goes on where the columns, their defaults and the constraints are well-formed.
#[tactic(auto, unfolding(crate::specs::Catalogues::first_in))]
fn check_columns(alloc: Global, book: &Book<'_>) -> Result<(), CheckError>
    ensures { GivesTable result (first_in book.now columns) }
{
    attributes(alloc, book)?;
    defaults(alloc, book)?;
    constraints(alloc, book)?;
    Ok(())
}

// Goes on where the indexes, sequences and views are well-formed.
#[tactic(auto, unfolding(crate::specs::Catalogues::first_in))]
fn check_own_rows(alloc: Global, book: &Book<'_>) -> Result<(), CheckError>
    ensures { GivesTable result (first_in book.now own_rows) }
{
    indexes(alloc, book)?;
    sequences(alloc, book)?;
    views(alloc, book)?;
    Ok(())
}

// Goes on where the comments and dependencies are well-formed.
#[tactic(auto, unfolding(crate::specs::Catalogues::first_in))]
fn check_notes(alloc: Global, book: &Book<'_>) -> Result<(), CheckError>
    ensures { GivesTable result (first_in book.now notes) }
{
    comments(alloc, book)?;
    depends(alloc, book)?;
    Ok(())
}

// Tries the tables in groups, which follow one another in the order of the tables.
fn check_groups(alloc: Global, book: &Book<'_>) -> Result<(), CheckError>
    ensures { GivesTable result (
        fault_before (first_in book.now cluster)
        (fault_before (first_in book.now objects)
        (fault_before (first_in book.now columns)
        (fault_before (first_in book.now own_rows)
        (first_in book.now notes))))) }
{
    check_cluster(alloc, book)?;
    check_objects(alloc, book)?;
    check_columns(alloc, book)?;
    check_own_rows(alloc, book)?;
    check_notes(alloc, book)
}

// Goes on where the rows of all tables are well-formed.
fn check_book(alloc: Global, book: &Book<'_>) -> Result<(), CheckError>
    ensures { GivesTable result (catalogue_fault book.now) }
{
    check_groups(alloc, book)
}

// The same of a catalogue, whose book is made.
fn check_tables(alloc: Global, cat: &Catalogue) -> Result<(), CheckError>
    ensures { GivesTable result (catalogue_fault cat.now) }
{
    let book = Book::of(alloc, cat)?;
    check_book(alloc, &book)
}

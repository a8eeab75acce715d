//! Rows that are kept.
ghost use Rattle.std.specs.Prelude.{◌≡◌, ◌++◌, ◌∷◌, [], not, IfOk, OnOk};
ghost use Rattle.std.specs.List.{filter};
ghost use Rattle.cat_names.specs.Kinds.{is_table, kind_of};

use cat_book::Book;
use cat_names::RelationKind;
use cat_rows::{AttributeRow, DependRow, Rows};
use std::alloc::{AllocError, Global};

// The row of a column again.
fn copied(row: &AttributeRow) -> Result<AttributeRow, AllocError>
    ensures { IfOk result (λ copy. copy ≡ row.now) }
{
    let typtext = row.typtext.clone()?;
    Ok(AttributeRow {
        attrelid: row.attrelid,
        attnum: row.attnum,
        attname: row.attname.clone()?,
        atttypid: row.atttypid,
        typtext,
        attnotnull: row.attnotnull,
    })
}

fn push_column(rows: &mut Rows<AttributeRow>, row: AttributeRow) -> Result<(), AllocError>
    ensures { OnOk result (rows.new ≡ rows.old ++ row ∷ []) }
{
    rows.push(row)?;
    Ok(())
}

// Whether an oid is a table's.
fn is_of_table(book: &Book<'_>, oid: u32) -> bool
    ensures { result ≡ is_table (kind_of book.now.pg_class oid) }
{
    match book.kind_of(oid) {
        Some(RelationKind::Table) => true,
        _ => false,
    }
}

// Adds a column, where it is none of a table.
fn keep_column(
    book: &Book<'_>,
    row: &AttributeRow,
    rows: &mut Rows<AttributeRow>,
) -> Result<(), AllocError>
    ensures { OnOk result (rows.new ≡ rows.old ++ filter (λ a. not (is_table (kind_of book.now.pg_class a.attrelid))) (row.now ∷ [])) }
{
    if is_of_table(book, row.attrelid) {
        return Ok(());
    }
    push_column(rows, copied(row)?)
}

/// Adds those of an opening's columns that are of no table of a catalogue, as those of views. The only error is want of memory.
pub fn keep_columns(
    book: &Book<'_>,
    opening: &[AttributeRow],
    rows: &mut Rows<AttributeRow>,
) -> Result<(), AllocError>
    ensures { OnOk result (rows.new ≡ rows.old ++ filter (λ a. not (is_table (kind_of book.now.pg_class a.attrelid))) opening.now) }
{
    for row in opening {
        keep_column(book, row, rows)?;
    }
    Ok(())
}

// The row of a dependency again.
fn copied_depend(row: &DependRow) -> DependRow
    ensures { result ≡ row.now }
{
    DependRow {
        classid: row.classid,
        objid: row.objid,
        objsubid: row.objsubid,
        refclassid: row.refclassid,
        refobjid: row.refobjid,
        refobjsubid: row.refobjsubid,
        deptype: row.deptype,
    }
}

fn push_depend(rows: &mut Rows<DependRow>, row: DependRow) -> Result<(), AllocError>
    ensures { OnOk result (rows.new ≡ rows.old ++ row ∷ []) }
{
    rows.push(row)?;
    Ok(())
}

/// The dependencies of an opening. The only error is want of memory.
pub fn kept_depends(alloc: Global, opening: &[DependRow]) -> Result<Rows<DependRow>, AllocError>
    ensures { IfOk result (λ rows. rows ≡ opening.now) }
{
    let mut rows = Rows::new(alloc);
    for row in opening {
        push_depend(&mut rows, copied_depend(row))?;
    }
    Ok(rows)
}

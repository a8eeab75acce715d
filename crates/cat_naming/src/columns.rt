//! The columns of tables, and their defaults.
ghost use Rattle.std.specs.Prelude.{◌≡◌, ◌++◌, IfOk, OnOk};
ghost use Rattle.std.specs.List.{flat_map, slice_get};
ghost use Rattle.std.specs.Option.{option_and_then, option_to_list};
ghost use Rattle.cat_naming.specs.Relations.{column_of, columns_of, default_entries};

use crate::texts::typed;
use cat_lookups::Lookups;
use cat_model::{Column, Key, Value};
use cat_rows::{AttrdefRow, AttributeRow};
use eng_map::{Entries, push_entry};
use row_texts::default_said;
use std::alloc::{AllocError, Global};

// A column by its row.
fn column_of(
    alloc: Global,
    lookups: &Lookups<'_>,
    row: &AttributeRow,
) -> Result<Option<Column>, AllocError>
    ensures { IfOk result (λ column. column ≡ column_of lookups.now row.now) }
{
    let name = row.attname.clone()?;
    match typed(alloc, lookups, row.atttypid, &row.typtext)? {
        Some((type_name, resolved)) => Ok(Some(Column {
            name,
            type_name,
            resolved,
            not_null: row.attnotnull,
        })),
        None => Ok(None),
    }
}

// The same of the row at a place.
fn column_at(
    alloc: Global,
    lookups: &Lookups<'_>,
    rows: &[AttributeRow],
    place: usize,
) -> Result<Option<Column>, AllocError>
    ensures { IfOk result (λ column. column ≡ option_and_then (column_of lookups.now) (slice_get rows.now place)) }
{
    match rows.get(place) {
        Some(row) => column_of(alloc, lookups, row),
        None => Ok(None),
    }
}

// Adds a column behind others, where there is one.
fn push_column(columns: &mut Vec<Column>, column: Option<Column>) -> Result<(), AllocError>
    ensures { OnOk result (columns.new.items ≡ columns.old.items ++ option_to_list column) }
{
    if let Some(column) = column {
        columns.push(column)?;
    }
    Ok(())
}

/// The columns of a table by rising numbers.
pub(crate) fn columns_of(
    alloc: Global,
    lookups: &Lookups<'_>,
    table: u32,
) -> Result<Vec<Column>, AllocError>
    ensures { IfOk result (λ columns. columns.items ≡ columns_of lookups.now table) }
{
    let rows = lookups.tables().pg_attribute.as_slice();
    let mut columns = Vec::new(alloc);
    for place in lookups.column_places(table) {
        let column = column_at(alloc, lookups, rows, *place)?;
        push_column(&mut columns, column)?;
    }
    Ok(columns)
}

// Adds the default of a column.
fn push_default(
    alloc: Global,
    entries: &mut Entries,
    lookups: &Lookups<'_>,
    row: &AttrdefRow,
) -> Result<(), AllocError>
    ensures { OnOk result (entries.new.items ≡ entries.old.items ++ default_entries lookups.now row.now) }
{
    let Some(table) = lookups.book().class_path_of(row.adrelid)? else {
        return Ok(());
    };
    let Some(column) = lookups.column_name(row.adrelid, row.adnum) else {
        return Ok(());
    };
    let Some(text) = default_said(alloc, row.adexpr.as_bytes())? else {
        return Ok(());
    };
    let key = Key::Default(table, column.clone()?);
    push_entry(entries, key, Value::DefaultText(text))
}

/// Adds what the defaults of columns give.
pub(crate) fn add_defaults(
    alloc: Global,
    entries: &mut Entries,
    lookups: &Lookups<'_>,
    rows: &[AttrdefRow],
) -> Result<(), AllocError>
    ensures { OnOk result (entries.new.items ≡ entries.old.items ++ flat_map (default_entries lookups.now) rows.now) }
{
    for row in rows {
        push_default(alloc, entries, lookups, row)?;
    }
    Ok(())
}

//! Rows with a null in a key.
ghost use Rattle.std.specs.Prelude.{◌≡◌, ◌&&◌, not, is_some, map, IfOk};
ghost use Rattle.std.specs.List.{list_any};
ghost use Rattle.cat_model.specs.Lexemes.{same_text};
ghost use Rattle.cat_model.specs.Tables.{null_in};
ghost use Rattle.row_keys.specs.Nulls.{null_at, first_null};

use copy_text::{Name, Row, Text};
use field_values::{ColumnValues, NamePlaces, TableColumns};
use std::alloc::{AllocError, Global};

/// The least row that has a null in one of these columns, behind the number of the least such column among the
/// table's columns, both counted from 1. The error says that there was no memory.
pub fn null_in(
    alloc: Global,
    columns: &TableColumns,
    names: &[Name],
    rows: &[Row],
) -> Result<Option<(u64, u64)>, AllocError>
    ensures { IfOk result (λ pair. pair ≡ null_in 1 columns.now names.now rows.now) }
{
    let named = are_named(alloc, columns.as_slice(), names)?;
    Ok(first_null(&named, rows))
}

/// Of each column whether it is one of these names. The error says that there was no memory.
pub fn are_named(
    alloc: Global,
    columns: &[ColumnValues],
    names: &[Name],
) -> Result<Vec<bool>, AllocError>
    ensures { IfOk result (λ named. named.items ≡ map (λ c. list_any (same_text c.name) names.now) columns.now) }
{
    let places = NamePlaces::of_names(alloc, names)?;
    let mut named = Vec::with_capacity(alloc, columns.len())?;
    for column in columns {
        named.push(places.has(column.name()))?;
    }
    Ok(named)
}

fn first_null(named: &[bool], rows: &[Row]) -> Option<(u64, u64)>
    ensures { result ≡ first_null 1 named.now rows.now }
{
    for i in 0..rows.len() {
        if let Some(column) = null_at(named, rows[i].fields()) {
            return Some((column, i as u64 + 1));
        }
    }
    None
}

fn is_missing(named: bool, field: &Option<Text>) -> bool
    ensures { result ≡ (named && not (is_some field.now)) }
{
    named && field.is_none()
}

// The number of the first field that is named and null.
fn null_at(named: &[bool], fields: &[Option<Text>]) -> Option<u64>
    ensures { result ≡ null_at 1 named.now fields.now }
{
    for i in 0..named.len().min(fields.len()) {
        if is_missing(named[i], &fields[i]) {
            return Some(i as u64 + 1);
        }
    }
    None
}

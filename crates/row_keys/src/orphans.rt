//! Rows without a parent.
ghost use Rattle.std.specs.Prelude.{◌≡◌, ℕ, List, Option, map, IfOk};
ghost use Rattle.cat_model.specs.Tables.{orphan, orphan_of};
ghost use Rattle.row_keys.specs.ByPlaces.{key_at};
ghost use Rattle.row_keys.specs.Known.{AreAmong};

use crate::joined_rows::JoinedRows;
use crate::key_places::{key_places, row_key};
use crate::row_key::RowKey;
use crate::seen::{add_parent, is_orphan};
use copy_text::{Name, Row};
use field_values::TableColumns;
use std::alloc::{AllocError, Global};
use std::collections::HashSet;

/// The least of the rows, counted from 1, whose key none of the parents has; a row with a null in the key needs none.
/// Each side is compared as its own columns are. It goes over the rows of each side once. The error says that there
/// was no memory.
pub fn orphan<'r>(
    alloc: Global,
    columns: &TableColumns,
    names: &[Name],
    rows: &'r [Row],
    parent_columns: &TableColumns,
    parent_names: &[Name],
    parent_rows: &JoinedRows<'r>,
) -> Result<Option<u64>, AllocError>
    ensures { IfOk result (λ row. row ≡ orphan columns.now names.now rows.now parent_columns.now parent_names.now parent_rows.now) }
{
    let parent_places = key_places(alloc, parent_columns, parent_names)?;
    let parents = parent_keys(alloc, parent_columns, &parent_places, parent_rows)?;
    let places = key_places(alloc, columns, names)?;
    Ok(first_orphan(alloc, columns, &places, rows, &parents)?)
}

fn parent_keys<'r>(
    alloc: Global,
    columns: &TableColumns,
    places: &[Option<usize>],
    rows: &JoinedRows<'r>,
) -> Result<HashSet<RowKey<'r>>, AllocError>
    ensures { IfOk result (AreAmong (map (key_at columns.now places.now) rows.now)) }
{
    let mut parents = HashSet::with_capacity(alloc, rows.len() as usize)?;
    for i in 0..rows.len() {
        let key = row_key(alloc, columns, places, rows.row(i))?;
        add_parent(&mut parents, key)?;
    }
    Ok(parents)
}

fn first_orphan<'r>(
    alloc: Global,
    columns: &TableColumns,
    places: &[Option<usize>],
    rows: &'r [Row],
    parents: &HashSet<RowKey<'r>>,
) -> Result<Option<u64>, AllocError>
    ensures { IfOk result (λ row. (keys : List (Option (List (List ℕ)))) → AreAmong keys parents.now → row ≡ orphan_of 1 keys (map (key_at columns.now places.now) rows.now)) }
{
    for i in 0..rows.len() {
        let key = row_key(alloc, columns, places, &rows[i])?;
        if is_orphan(parents, &key) {
            return Ok(Some(i as u64 + 1));
        }
    }
    Ok(None)
}

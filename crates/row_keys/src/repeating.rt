//! Rows with the key of an earlier one.
ghost use Rattle.std.specs.Prelude.{◌≡◌, [], map, IfOk};
ghost use Rattle.cat_model.specs.Tables.{repeated, repeated_after};
ghost use Rattle.row_keys.specs.ByPlaces.{key_at};

use crate::joined_rows::JoinedRows;
use crate::key_places::{key_places, row_key};
use crate::seen::add;
use copy_text::Name;
use field_values::TableColumns;
use std::alloc::{AllocError, Global};
use std::collections::HashMap;

/// The least row that has the key of an earlier one, behind the least row with that key, both counted from 1; a row
/// with a null in the key has none. It goes over the rows once. The error says that there was no memory.
pub fn repeated(
    alloc: Global,
    columns: &TableColumns,
    names: &[Name],
    rows: &JoinedRows,
) -> Result<Option<(u64, u64)>, AllocError>
    ensures { IfOk result (λ pair. pair ≡ repeated columns.now names.now rows.now) }
{
    let places = key_places(alloc, columns, names)?;
    Ok(first_repeated(alloc, columns, &places, rows)?)
}

fn first_repeated(
    alloc: Global,
    columns: &TableColumns,
    places: &[Option<usize>],
    rows: &JoinedRows,
) -> Result<Option<(u64, u64)>, AllocError>
    ensures { IfOk result (λ pair. pair ≡ repeated_after [] (map (key_at columns.now places.now) rows.now)) }
{
    let mut known = HashMap::with_capacity(alloc, rows.len() as usize)?;
    for i in 0..rows.len() {
        let key = row_key(alloc, columns, places, rows.row(i))?;
        if let Some(first) = add(&mut known, i + 1, key)? {
            return Ok(Some((first, i + 1)));
        }
    }
    Ok(None)
}

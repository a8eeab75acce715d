//! The columns of a key by their places, and the keys of rows in them.
ghost use Rattle.std.specs.Prelude.{◌≡◌, map, IfOk};
ghost use Rattle.std.specs.Option.{option_copied};
ghost use Rattle.std.specs.List.{slice_get};
ghost use Rattle.row_keys.specs.ByPlaces.{place_in, field_at, key_at};

use crate::row_key::RowKey;
use copy_text::{Name, Row, Text};
use field_values::{ColumnValues, TableColumns};
use std::alloc::{AllocError, Global};

/// The place of each column of a key, and `None` for a name that no column has.
pub(crate) fn key_places(
    alloc: Global,
    columns: &TableColumns,
    names: &[Name],
) -> Result<Vec<Option<usize>>, AllocError>
    ensures { IfOk result (λ places. places.items ≡ map (place_in columns.now) names.now) }
{
    let mut places = Vec::with_capacity(alloc, names.len())?;
    for name in names {
        places.push(columns.place(name.as_bytes()))?;
    }
    Ok(places)
}

fn column_at<'c, 'a>(columns: &'c [ColumnValues<'a>], place: usize) -> Option<&'c ColumnValues<'a>>
    ensures { option_copied result ≡ slice_get columns.now place }
{
    columns.get(place)
}

fn field_in(fields: &[Option<Text>], place: usize) -> Option<&Option<Text>>
    ensures { option_copied result ≡ slice_get fields.now place }
{
    fields.get(place)
}

// The field of a row at a place, as the column there compares it; `None` where it is null.
fn field_at<'r>(columns: &TableColumns, place: Option<usize>, row: &'r Row) -> Option<&'r [u8]>
    ensures { option_copied result ≡ field_at columns.now place row.now }
{
    let place = place?;
    let column = column_at(columns.as_slice(), place)?;
    let field = field_in(row.fields(), place)?;
    match field {
        Some(text) => Some(column.compared(text.as_bytes())),
        None => None,
    }
}

/// The key of a row in the columns at these places, `None` where one of its fields is null.
pub(crate) fn row_key<'r>(
    alloc: Global,
    columns: &TableColumns,
    places: &[Option<usize>],
    row: &'r Row,
) -> Result<Option<RowKey<'r>>, AllocError>
    ensures { IfOk result (λ key. key ≡ key_at columns.now places.now row.now) }
{
    let mut key = RowKey::with_capacity(alloc, places.len())?;
    for place in places {
        let Some(field) = field_at(columns, *place, row) else {
            return Ok(None);
        };
        key.push(field)?;
    }
    Ok(Some(key))
}

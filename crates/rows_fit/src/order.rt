//! The fields of a line in the order of a table's columns.
ghost use Rattle.std.specs.Prelude.{◌≡◌, List, Option, ℕ, length, map, IfOk};
ghost use Rattle.std.specs.Option.{option_map};
ghost use Rattle.std.specs.List.{position_from};
ghost use Rattle.cat_model.specs.Lexemes.{same_text};
ghost use Rattle.cat_model.specs.CopiedRows.{in_order};
ghost use Rattle.rows_fit.specs.Orders.{field_from, ordered_by, counts_from, is_at};

use copy_text::{Name, Row, Text};
use field_values::{ColumnValues, NamePlaces};
use std::alloc::{AllocError, Global};

/// Where the field of each column stands among those of a line whose fields are those of these names; `None` where
/// they stand in the order of the columns. The error says that there was no memory.
pub(crate) fn field_order(
    alloc: Global,
    columns: &[ColumnValues],
    names: &[Name],
) -> Result<Option<Vec<Option<usize>>>, AllocError>
    ensures { IfOk result (λ order. (fields : List (Option (List ℕ))) → length fields ≡ length columns.now → in_order columns.now names.now fields ≡ ordered_by (option_map (λ o. o.items) order) fields) }
{
    if names.is_empty() {
        return Ok(None);
    }
    let order = column_places(alloc, columns, names)?;
    if counts(&order) {
        Ok(None)
    } else {
        Ok(Some(order))
    }
}

fn column_places(
    alloc: Global,
    columns: &[ColumnValues],
    names: &[Name],
) -> Result<Vec<Option<usize>>, AllocError>
    ensures { IfOk result (λ places. places.items ≡ map (λ c. position_from (same_text c.name) 0 names.now) columns.now) }
{
    let named = NamePlaces::of_names(alloc, names)?;
    let mut places = Vec::with_capacity(alloc, columns.len())?;
    for column in columns {
        places.push(named.place(column.name()))?;
    }
    Ok(places)
}

// Whether these are the places from 0 on, one after another.
fn counts(places: &[Option<usize>]) -> bool
    ensures { result ≡ counts_from 0 places.now }
{
    for i in 0..places.len() {
        if !is_place(places[i], i) {
            return false;
        }
    }
    true
}

fn is_place(place: Option<usize>, i: usize) -> bool
    ensures { result ≡ is_at i place }
{
    match place {
        Some(place) => place == i,
        None => false,
    }
}

/// The fields in this order.
pub(crate) fn ordered(
    alloc: Global,
    order: &Option<Vec<Option<usize>>>,
    row: Row,
) -> Result<Row, AllocError>
    ensures { IfOk result (λ fields. fields ≡ ordered_by (option_map (λ o. o.items) order.now) row) }
{
    match order {
        Some(order) => Ok(picked(alloc, order, &row)?),
        None => Ok(row),
    }
}

fn picked(alloc: Global, order: &[Option<usize>], row: &Row) -> Result<Row, AllocError>
    ensures { IfOk result (λ fields. fields ≡ map (field_from row.now) order.now) }
{
    let mut fields = Row::new(alloc);
    for place in order {
        fields.push(field_from(row.fields(), *place)?)?;
    }
    Ok(fields)
}

fn field_from(fields: &[Option<Text>], place: Option<usize>) -> Result<Option<Text>, AllocError>
    ensures { IfOk result (λ field. field ≡ field_from fields.now place) }
{
    let Some(place) = place else {
        return Ok(None);
    };
    match fields.get(place) {
        Some(Some(text)) => Ok(Some(text.clone()?)),
        _ => Ok(None),
    }
}

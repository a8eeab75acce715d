//! Rows of a table at places.
ghost use Rattle.std.specs.Prelude.{◌≡◌, ◌++◌, map, filter_map, option_map, IfOk, OnOk};
ghost use Rattle.std.specs.List.{slice_get};
ghost use Rattle.std.specs.Option.{option_and_then, option_to_list};

use std::alloc::{AllocError, Global};

// Adds a row behind others, where there is one.
fn push_some<'r, R>(found: &mut Vec<&'r R>, row: Option<&'r R>) -> Result<(), AllocError>
    ensures { OnOk result (map (λ r. r.now) found.new.items ≡ map (λ r. r.now) found.old.items ++ option_to_list (option_map (λ r. r.now) row.entry)) }
{
    if let Some(row) = row {
        found.push(row)?;
    }
    Ok(())
}

// The row at a place; a place behind the last row has none.
fn row_of<R>(rows: &[R], place: usize) -> Option<&R>
    ensures { option_map (λ r. r.now) result ≡ slice_get rows.now place }
{
    rows.get(place)
}

/// The rows at these places, in their order; a place behind the last row has none. The only error is that memory ran out.
pub(crate) fn rows_at<'r, R>(
    alloc: Global,
    rows: &'r [R],
    places: &[usize],
) -> Result<Vec<&'r R>, AllocError>
    ensures { IfOk result (λ found. map (λ r. r.now) found.items ≡ filter_map (slice_get rows.now) places.now) }
{
    let mut found = Vec::new(alloc);
    for place in places {
        push_some(&mut found, row_of(rows, *place))?;
    }
    Ok(found)
}

/// The row at a place, if there is one.
pub(crate) fn row_at<R>(rows: &[R], place: Option<usize>) -> Option<&R>
    ensures { option_map (λ r. r.now) result ≡ option_and_then (slice_get rows.now) place }
{
    match place {
        Some(place) => row_of(rows, place),
        None => None,
    }
}

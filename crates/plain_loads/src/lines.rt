//! Lines of a text that fit a table.
ghost use Rattle.std.specs.Prelude.{◌≡◌, ℕ, List, [], true, IfOk, IfSome};
ghost use Rattle.std.specs.List.{AllByRecursion};
ghost use Rattle.copy_text.specs.Lines.{data_lines};
ghost use Rattle.plain_rows.specs.Lines.{LineFits, line_keys, none_again};

use crate::uniques::one_place;
use copy_text::Name;
use field_values::TableColumns;
use plain_rows::{rows_fit, rows_fit_rising};
use std::alloc::{AllocError, Global};

/// What was seen of lines that fit: the place of a column in which their keys rise, so that no two are one.
#[derive(Drop)]
pub(crate) struct Fitting {
    pub(crate) rising: Option<usize>,
}

// The place of the one column of a key, where the lines fit and their keys rise there.
fn rising_place(columns: &TableColumns<'_>, names: &[Name], text: &[u8]) -> Option<usize>
    ensures fit { IfSome result (λ place. (primary : List (List ℕ)) → AllByRecursion (LineFits columns.now primary) (data_lines text.now)) }
    ensures rise { IfSome result (λ place. none_again [] (line_keys columns.now place text.now) ≡ true) }
{
    let place = one_place(columns, names)?;
    if rows_fit_rising(columns, place, text) {
        Some(place)
    } else {
        None
    }
}

/// What is seen of the lines of a text, where each is a row that a table with these columns and this primary key takes; mostly
/// in one pass with its keys. The error is that memory ran out.
pub(crate) fn find_fitting(
    alloc: Global,
    columns: &TableColumns<'_>,
    primary: &[Name],
    text: &[u8],
) -> Result<Option<Fitting>, AllocError>
    ensures fit { IfOk result (λ found. IfSome found (λ f. AllByRecursion (LineFits columns.now primary.now) (data_lines text.now))) }
    ensures rise { IfOk result (λ found. IfSome found (λ f. IfSome f.rising (λ place. none_again [] (line_keys columns.now place text.now) ≡ true))) }
{
    if let Some(place) = rising_place(columns, primary, text) {
        return Ok(Some(Fitting {
            rising: Some(place),
        }));
    }
    if rows_fit(alloc, columns, primary, text)? {
        Ok(Some(Fitting { rising: None }))
    } else {
        Ok(None)
    }
}

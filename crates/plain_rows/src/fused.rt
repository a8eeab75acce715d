//! Lines of a text without an escape that fit a table, with keys that rise, in one pass.
ghost use Rattle.std.specs.Prelude.{◌≡◌, ◌<◌, ◌≤◌, ◌-◌, ◌∷◌, ℕ, List, [], true, length, Some, IfSome, IsTrue, if◌then◌else◌};
ghost use Rattle.std.specs.List.{AllByRecursion, AllZip, slice_get};
ghost use Rattle.std.specs.Option.{option_map};
ghost use Rattle.copy_text.specs.Lines.{data_lines};
ghost use Rattle.copy_text.specs.Pieces.{pieces};
ghost use Rattle.line_fields.specs.Clear.{IsClear, IsClearText, behind_line, first_line};
ghost use Rattle.plain_rows.specs.Lines.{FitsFirst, LineFits, TakesPiece, line_keys, none_again};

use crate::keys::{column_at, rise_to};
use field_marks::{TextAhead, is_clear_text};
use field_values::{ColumnValues, TableColumns};

// This piece where it is the one looked for, else what was found.
fn piece_or<'t>(is_here: bool, piece: &'t [u8], found: Option<&'t [u8]>) -> Option<&'t [u8]>
    ensures { option_map (λ t. t.now) result ≡ (if is_here then Some piece.now else option_map (λ t. t.now) found.entry) }
{
    if is_here { Some(piece) } else { found }
}

// What was found in a line that has as many pieces as the table columns, and what stands behind the line.
fn found_in<'t>(
    is_whole: bool,
    found: Option<&'t [u8]>,
    behind: TextAhead<'t>,
) -> Option<(&'t [u8], TextAhead<'t>)>
    ensures whole { IfSome result (λ p. is_whole ≡ true) }
    ensures piece { IfSome result (λ p. option_map (λ t. t.now) found.entry ≡ Some p.0.now) }
    ensures behind { IfSome result (λ p. p.1 ≡ behind.entry) }
{
    if !is_whole {
        return None;
    }
    let piece = found?;
    Some((piece, behind))
}

// The piece of a text's first line at a place, and what stands behind the line, where each column takes its piece of the line
// and there is one for each.
fn fitting_piece<'t>(
    columns: &[ColumnValues],
    place: usize,
    text: TextAhead<'t>,
) -> Option<(&'t [u8], TextAhead<'t>)>
    ensures fits { IfSome result (λ p. IsClear text.entry → AllZip TakesPiece columns.now (pieces (first_line text.entry))) }
    ensures piece { IfSome result (λ p. IsClear text.entry → slice_get (pieces (first_line text.entry)) place ≡ Some p.0.now) }
    ensures line { IfSome result (λ p. IsClear text.entry → p.1 ≡ behind_line text.entry) }
    ensures shorter { IfSome result (λ p. length p.1 ≤ length text.entry - 1) }
{
    let mut rest = text;
    let mut found = None;
    for i in 0..columns.len() {
        let (piece, more, behind) = rest.split();
        if !columns[i].takes(piece) {
            return None;
        }
        found = piece_or(i == place, piece, found);
        if !more {
            return found_in(i + 1 == columns.len(), found, behind);
        }
        rest = behind;
    }
    None
}

/// The key of a text's first line in the column at a place, and what stands behind the line, where the line fits the table.
#[inline(always)]
pub(crate) fn fitting_key<'t>(
    columns: &TableColumns,
    place: usize,
    text: TextAhead<'t>,
) -> Option<(&'t [u8], TextAhead<'t>)>
    ensures first { IfSome result (λ p. IsClearText text.entry → 0 < length text.entry → FitsFirst columns.now place text.entry p.0.now p.1) }
    ensures shorter { IfSome result (λ p. length p.1 ≤ length text.entry - 1) }
{
    let column = column_at(columns.as_slice(), place)?;
    let Some((piece, behind)) = fitting_piece(columns.as_slice(), place, text) else {
        return None;
    };
    Some((column.compared(piece), behind))
}

// Whether the lines of a text without an escape fit the table, and their keys rise in the column at a place.
fn lines_fit(columns: &TableColumns, place: usize, text: &[u8]) -> bool
    ensures fit { IsTrue result → IsClearText text.now → (primary : List (List ℕ)) → AllByRecursion (LineFits columns.now primary) (data_lines text.now) }
    ensures rise { IsTrue result → IsClearText text.now → none_again [] (line_keys columns.now place text.now) ≡ true }
{
    let mut last = None;
    let mut rest = TextAhead::new(text);
    'lines: while !rest.is_empty() {
        let Some((key, behind)) = fitting_key(columns, place, rest) else {
            return false;
        };
        if !rise_to(&mut last, key) {
            return false;
        }
        rest = behind;
    }
    true
}

/// Whether each line of a text is a row that a table with these columns takes, whatever its primary key is, and the keys of the
/// lines rise in the column at this place, as `keys_rise` says. It goes over the text once and takes no memory, and says no of
/// a text that isn't UTF-8 or has a backslash or a carriage return, so of one with a null.
pub fn rows_fit_rising(columns: &TableColumns, place: usize, text: &[u8]) -> bool
    ensures fit { IsTrue result → (primary : List (List ℕ)) → AllByRecursion (LineFits columns.now primary) (data_lines text.now) }
    ensures rise { IsTrue result → none_again [] (line_keys columns.now place text.now) ≡ true }
{
    is_clear_text(text) && lines_fit(columns, place, text)
}

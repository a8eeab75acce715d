//! Rows of a text without an escape, counted.
ghost use Rattle.std.specs.Prelude.{◌≡◌, ◌≤◌, ◌-◌, IfSome, List, Ok, length};
ghost use Rattle.copy_text.specs.Pieces.{pieces};
ghost use Rattle.copy_text.specs.Rows.{Field};
ghost use Rattle.data_rows.specs.Rows.{rows_of};
ghost use Rattle.line_fields.specs.Clear.{IsClear, IsClearText, behind_line, first_line};

use line_fields::{is_clear_text, split_field};

// What stands behind the first line of a text without an escape, where the line has this many pieces.
fn behind_row(text: &[u8], columns: usize) -> Option<&[u8]>
    ensures many { IfSome result (λ behind. IsClear text.now → length (pieces (first_line text.now)) ≡ columns) }
    ensures line { IfSome result (λ behind. IsClear text.now → behind.now ≡ behind_line text.now) }
    ensures shorter { IfSome result (λ behind. length behind.now ≤ length text.now - 1) }
{
    let mut rest = text;
    for i in 0..columns {
        let (_, more, behind) = split_field(rest);
        if !more {
            return if i + 1 == columns { Some(behind) } else { None };
        }
        rest = behind;
    }
    None
}

// How many rows a text without an escape holds for a table with this many columns; `None` where a line has another number of
// fields.
fn row_count(text: &[u8], columns: usize) -> Option<u64>
    ensures { IfSome result (λ count. IsClearText text.now → (rows : List (List Field)) × (rows_of columns text.now ≡ Ok rows) × (count ≡ length rows)) }
{
    let mut count = 0;
    let mut rest = text;
    'lines: while !rest.is_empty() {
        let Some(behind) = behind_row(rest, columns) else {
            return None;
        };
        count += 1;
        rest = behind;
    }
    Some(count)
}

/// How many rows a text holds for a table with this many columns, where that is told without reading a field: of a text that
/// is UTF-8 without a backslash and a carriage return, and whose lines have as many tabs as the table needs. It takes no memory.
pub(crate) fn quick_count(text: &[u8], columns: usize) -> Option<u64>
    ensures { IfSome result (λ count. (rows : List (List Field)) × (rows_of columns text.now ≡ Ok rows) × (count ≡ length rows)) }
{
    if is_clear_text(text) {
        row_count(text, columns)
    } else {
        None
    }
}

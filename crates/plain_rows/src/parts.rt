//! Parts of a text without an escape, whose lines are tried one part after another.
ghost use Rattle.std.specs.Prelude.{◌≡◌, ◌∷◌, ◌++◌, ℕ, List, [], Option, Some, true, IsTrue};
ghost use Rattle.std.specs.List.{AllByRecursion};
ghost use Rattle.copy_text.specs.Lines.{data_lines};
ghost use Rattle.line_fields.specs.Clear.{IsClearText};
ghost use Rattle.plain_rows.specs.Lines.{LineFits, line_keys};
ghost use Rattle.plain_rows.specs.Parts.{AreApart, EndsLine};

use crate::fused::fitting_key;
use field_marks::{TextAhead, is_clear_text};
use field_values::TableColumns;
use key_sets::KeySet;

fn ends_line(part: &[u8]) -> bool
    ensures { IsTrue result → IsClearText part.now → EndsLine part.now }
{
    match part.split_last() {
        Some((last, _front)) => *last == b'\n',
        None => false,
    }
}

/// Whether a part of a text is UTF-8 without a backslash and a carriage return, and ends with its last line's newline, so that
/// the lines of a text that begins with it are its own and those of the rest.
pub fn is_part(part: &[u8]) -> bool
    ensures clear { IsTrue result → IsClearText part.now }
    ensures ends { IsTrue result → EndsLine part.now }
{
    ends_line(part) && is_clear_text(part)
}

// Adds a number to the keys so far, where it is new.
fn add_number(keys: &mut KeySet<'_>, key: &[u8]) -> bool
    ensures { IsTrue result → (before : List (Option (List ℕ))) → AreApart before keys.old → AreApart (before ++ Some key.now ∷ []) keys.new }
{
    keys.insert_number(key)
}

/// Whether each line of a part of a text, as `is_part` has it, is a row that a table with these columns takes, whatever its
/// primary key is, and the lines' keys in the column at this place are numbers that have places in a set and weren't in it
/// before. They are in it then; of a no it has some of them. Nothing of the text is held, and no memory is taken.
pub fn part_fits(columns: &TableColumns, place: usize, part: &[u8], keys: &mut KeySet<'_>) -> bool
    ensures fit { IsTrue result → IsClearText part.now → (primary : List (List ℕ)) → AllByRecursion (LineFits columns.now primary) (data_lines part.now) }
    ensures apart { IsTrue result → IsClearText part.now → (before : List (Option (List ℕ))) → AreApart before keys.old → AreApart (before ++ line_keys columns.now place part.now) keys.new }
{
    let mut rest = TextAhead::new(part);
    'lines: while !rest.is_empty() {
        let Some((key, behind)) = fitting_key(columns, place, rest) else {
            return false;
        };
        if !add_number(keys, key) {
            return false;
        }
        rest = behind;
    }
    true
}

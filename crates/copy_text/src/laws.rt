//! Laws of the format, each the contract of a function that does nothing.
ghost use Rattle.std.specs.Prelude.{◌≡◌, ◌≢◌, ◌↔◌, [], ◌∷◌, ◌++◌, List, ℕ, Ok, Err, codes, IsTrue};
ghost use Rattle.std.specs.List.{All};
ghost use Rattle.copy_text.specs.declared.fault.CopyFault.{CopyFault};
ghost use Rattle.copy_text.specs.Texts.{IsName, IsText, is_name, is_text};
ghost use Rattle.copy_text.specs.Marks.{newline};
ghost use Rattle.copy_text.specs.Rows.{Field, IsRow, SpellsRow, spell_row, spell_rows};
ghost use Rattle.copy_text.specs.Reading.{IsFirstFault, row_of};
ghost use Rattle.copy_text.specs.Examples.{four_fields, four_fields_line, text_of_two_lines};
ghost use Rattle.copy_text.specs.Lines.{SpellsRows, rows_of_text, line_at};

use crate::fault::CopyFault;
use crate::line::Line;

/// The tests for names and texts say exactly what is one.
pub fn tests_are_exact()
    ensures name { (bytes : List ℕ) → IsTrue (is_name bytes) ↔ IsName bytes }
    ensures text { (bytes : List ℕ) → IsTrue (is_text bytes) ↔ IsText bytes }
{}

/// The written spelling of a row spells the row.
pub fn written_row_is_spelled()
    ensures { (row : List Field) → IsRow row → SpellsRow row (spell_row row) }
{}

/// What a line spells can be written.
pub fn spelled_row_can_be_written()
    ensures { (row : List Field) (line : List ℕ) → SpellsRow row line → IsRow row }
{}

/// A line spells at most one row.
pub fn one_row_a_line()
    ensures { (row other : List Field) (line : List ℕ) → SpellsRow row line → SpellsRow other line → row ≡ other }
{}

/// Reading a line gives a row exactly where the line spells it, and a fault exactly where it is the line's first.
pub fn reading_is_exact()
    ensures row { (row : List Field) (line : List ℕ) → All (λ b. b ≢ newline) line → (row_of line ≡ Ok row) ↔ SpellsRow row line }
    ensures fault { (line : List ℕ) (f : CopyFault) → (row_of line ≡ Err f) ↔ IsFirstFault line f }
{}

/// Reading a text gives rows exactly where its lines spell them.
pub fn reading_a_text_is_exact()
    ensures { (rows : List (List Field)) (text : List ℕ) → (rows_of_text text ≡ Ok rows) ↔ SpellsRows rows text }
{}

/// Rows that are written one after another, before a text that holds more, are that text's first rows.
pub fn written_rows_are_read()
    ensures { (rows more : List (List Field)) (text : List ℕ) → All IsRow rows → SpellsRows more text
        → SpellsRows (rows ++ more) (spell_rows rows ++ text) }
{}

/// Worked examples, computed from the definitions. `\\` stands for one backslash.
pub fn worked_examples()
    ensures escapes { row_of (codes "a\\x41\\101\\q") ≡ Ok (Some (codes "aAAq") ∷ []) }
    ensures modulo { row_of (codes "\\501\\12x") ≡ Ok (Some (65 ∷ 10 ∷ 120 ∷ []) ∷ []) }
    ensures letters { row_of (codes "\\b\\f\\n\\r\\t\\v\\xg") ≡ Ok (Some (8 ∷ 12 ∷ 10 ∷ 13 ∷ 9 ∷ 11 ∷ 120 ∷ 103 ∷ []) ∷ []) }
    ensures null { row_of (codes "\\N") ≡ Ok (None ∷ []) }
    ensures letter_n { row_of (codes "\\Nx") ≡ Ok (Some (codes "Nx") ∷ []) }
    ensures empty { row_of [] ≡ Ok (Some [] ∷ []) }
    ensures escaped_tab { row_of (92 ∷ 9 ∷ 9 ∷ []) ≡ Ok (Some (9 ∷ []) ∷ Some [] ∷ []) }

    ensures open_end { row_of (codes "ab\\") ≡ Err (CopyFault.EndsInBackslash 2) }
    ensures raw_return { row_of (97 ∷ 13 ∷ []) ≡ Err (CopyFault.RawReturn 1) }
    ensures bad_utf8 { row_of (255 ∷ []) ≡ Err (CopyFault.BadUtf8 0) }
    ensures field_start { row_of (97 ∷ 9 ∷ 98 ∷ 255 ∷ 13 ∷ []) ≡ Err (CopyFault.BadUtf8 2) }

    ensures written { spell_row four_fields ≡ four_fields_line }
    ensures read_again { row_of four_fields_line ≡ Ok four_fields }

    ensures first_line { line_at text_of_two_lines 0 ≡ Line.Row 0 1 2 }
    ensures second_line { line_at text_of_two_lines 2 ≡ Line.Stop }
    ensures at_end { line_at text_of_two_lines 5 ≡ Line.End }
    ensures rows { rows_of_text text_of_two_lines ≡ Ok ((Some (codes "x") ∷ []) ∷ []) }
{}

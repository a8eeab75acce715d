//! Laws of the definitions, each the contract of a function that does nothing.
ghost use Rattle.std.specs.Prelude.{◌≡◌, ◌↔◌, ℕ, [], ◌∷◌, ◌++◌, List, length, map, All, None, Some, Ok, Err, codes};
ghost use Rattle.copy_text.specs.Rows.{Field, IsRow, spell_rows};
ghost use Rattle.copy_text.specs.declared.fault.CopyFault.TheVariants.{RawReturn, EndsInBackslash};
ghost use Rattle.data_rows.specs.declared.fault.DataFault.TheVariants.{BadRow, Fields};
ghost use Rattle.data_rows.specs.declared.fault.RowsFault.{RowsFault};
ghost use Rattle.data_rows.specs.Rows.{read_lines, rows_of};
ghost use Rattle.data_rows.specs.Holds.{HoldsRows, FailsFirst};
ghost use Rattle.data_rows.specs.Examples.{line_of, text_of};

use copy_text::laws::{reading_is_exact, spelled_row_can_be_written, written_rows_are_read};

/// A text has rows for a table exactly where its lines hold them. They are what its lines read as, so two texts that
/// have rows have the same exactly where their lines read alike; and texts whose lines read alike have the same rows
/// or the same fault.
pub fn rows_are_what_their_lines_read()
    ensures exact { (columns : ℕ) (text : List ℕ) (rows : List (List Field)) → (rows_of columns text ≡ Ok rows) ↔ HoldsRows columns rows text }
    ensures lines { (columns : ℕ) (text : List ℕ) (rows : List (List Field)) → rows_of columns text ≡ Ok rows → read_lines text ≡ map Ok rows }
    ensures same { (columns : ℕ) (text other : List ℕ) (rows other_rows : List (List Field)) → rows_of columns text ≡ Ok rows → rows_of columns other ≡ Ok other_rows
        → (rows ≡ other_rows) ↔ (read_lines text ≡ read_lines other) }
    ensures alike { (columns : ℕ) (text other : List ℕ) → read_lines text ≡ read_lines other → rows_of columns text ≡ rows_of columns other }
{
    reading_is_exact();
}

/// A text has a fault for a table exactly where the row with that number is the first that fails, and so: the lines
/// before it hold rows of the table, and it spells no row or one with another number of fields.
pub fn the_first_fault_is_told()
    ensures { (columns : ℕ) (text : List ℕ) (first : RowsFault) → (rows_of columns text ≡ Err first) ↔ FailsFirst columns text first }
{
    reading_is_exact();
}

/// A table without columns has no row.
pub fn no_row_without_columns()
    ensures { (text : List ℕ) (rows : List (List Field)) → rows_of 0 text ≡ Ok rows → rows ≡ [] }
{
    reading_is_exact();
    spelled_row_can_be_written();
}

/// Rows that can be written and have a field for each column are the rows of what is written for them.
pub fn written_rows_read()
    ensures { (columns : ℕ) (rows : List (List Field)) → All IsRow rows → All (λ row. length row ≡ columns) rows → rows_of columns (spell_rows rows) ≡ Ok rows }
{
    reading_is_exact();
    written_rows_are_read();
}

/// Worked examples, computed from the definitions. `\\` stands for one backslash.
pub fn worked_examples()
    ensures two_rows { rows_of 2 (text_of (line_of (codes "1" ∷ codes "a" ∷ []) ∷ line_of (codes "2" ∷ codes "\\N" ∷ []) ∷ []))
        ≡ Ok ((Some (codes "1") ∷ Some (codes "a") ∷ []) ∷ (Some (codes "2") ∷ None ∷ []) ∷ []) }
    ensures last_newline { rows_of 1 (codes "a") ≡ rows_of 1 (text_of (codes "a" ∷ [])) }
    ensures no_row { rows_of 1 [] ≡ Ok [] }
    ensures empty_field { rows_of 1 (text_of ([] ∷ [])) ≡ Ok ((Some [] ∷ []) ∷ []) }
    ensures no_columns { rows_of 0 (text_of ([] ∷ [])) ≡ Err (record { row = 1; fault = Fields 1 }) }
    ensures no_columns_no_row { rows_of 0 [] ≡ Ok [] }
    ensures end_mark { rows_of 1 (text_of (codes "a" ∷ codes "\\." ∷ []) ++ codes "rest") ≡ Ok ((Some (codes "a") ∷ []) ∷ []) }
    ensures end_mark_alone { rows_of 2 (codes "\\.") ≡ Ok [] }

    ensures second_row { rows_of 2 (text_of (line_of (codes "1" ∷ codes "2" ∷ []) ∷ codes "3" ∷ [])) ≡ Err (record { row = 2; fault = Fields 1 }) }
    ensures open_end { rows_of 1 (text_of (codes "ab\\" ∷ [])) ≡ Err (record { row = 1; fault = BadRow (EndsInBackslash 2) }) }
    ensures copy_first { rows_of 3 (text_of (line_of (codes "a" ∷ codes "b\\" ∷ []) ∷ [])) ≡ Err (record { row = 1; fault = BadRow (EndsInBackslash 3) }) }
    ensures first_row_first { rows_of 1 (text_of (line_of (codes "a" ∷ codes "b" ∷ []) ∷ (13 ∷ []) ∷ [])) ≡ Err (record { row = 1; fault = Fields 2 }) }

    ensures escaped { read_lines (text_of (codes "\\x41" ∷ [])) ≡ read_lines (text_of (codes "A" ∷ [])) }
    ensures null { read_lines (codes "\\N") ≡ Ok (None ∷ []) ∷ [] }
    ensures faults_too { read_lines (text_of ((13 ∷ []) ∷ codes "a" ∷ [])) ≡ Err (RawReturn 0) ∷ Ok (Some (codes "a") ∷ []) ∷ [] }
{}

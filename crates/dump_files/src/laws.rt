//! Laws of the definitions, each the contract of a function that does nothing.
ghost use Rattle.std.specs.Prelude.{◌≡◌, ℕ, [], ◌∷◌, ◌++◌, List, length, Some, None, Ok, Err, codes};
ghost use Rattle.copy_text.specs.Rows.{Field, spell_rows};
ghost use Rattle.copy_text.specs.declared.fault.CopyFault.TheVariants.{EndsInBackslash};
ghost use Rattle.data_rows.specs.declared.fault.DataFault.TheVariants.{BadRow, Fields};
ghost use Rattle.data_rows.specs.declared.fault.RowsFault.{RowsFault};
ghost use Rattle.data_rows.specs.Rows.{rows_of};
ghost use Rattle.dump_files.specs.Spelled.{spelled, ending};
ghost use Rattle.dump_files.specs.Examples.{two_rows, two_rows_out};

/// A text that has rows for a table is put out as these rows, each in its one spelling, and the ending; one that has a first
/// row that fails is put out up to it.
pub fn rows_are_spelled_anew()
    ensures rows { (columns : ℕ) (text : List ℕ) (rows : List (List Field)) → rows_of columns text ≡ Ok rows
        → spelled columns text ≡ record { text = spell_rows rows ++ ending; rows = length rows; fault = None } }
    ensures fault { (columns : ℕ) (text : List ℕ) (first : RowsFault) → rows_of columns text ≡ Err first → (spelled columns text).fault ≡ Some first }
{}

/// Worked examples, computed from the definitions. `\\` stands for one backslash.
pub fn worked_examples()
    ensures two_rows { spelled 2 two_rows ≡ record { text = two_rows_out; rows = 2; fault = None } }
    ensures no_row { spelled 2 [] ≡ record { text = codes "\\.\n\n\n"; rows = 0; fault = None } }
    ensures last_line { spelled 1 (codes "a") ≡ spelled 1 (codes "a\n") }
    ensures second_row { spelled 1 (codes "a\nb\tc\nd\n") ≡ record { text = codes "a\n"; rows = 1; fault = Some (record { row = 2; fault = Fields 2 }) } }
    ensures open_end { spelled 1 (codes "ab\\\n") ≡ record { text = []; rows = 0; fault = Some (record { row = 1; fault = BadRow (EndsInBackslash 2) }) } }
{}

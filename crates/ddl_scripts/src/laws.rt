//! Laws of the definitions, each the contract of a function that does nothing.
ghost use Rattle.std.specs.Prelude.{◌≡◌, ℕ, ◌+◌, ◌≤◌, true, List, ◌∷◌, ◌++◌, length, Option, Ok};
ghost use Rattle.std.specs.List.{list_all};
ghost use Rattle.copy_text.specs.Marks.{newline, end_mark};
ghost use Rattle.sql_lex.specs.Bytes.{in_line};
ghost use Rattle.cat_model.specs.declared.stmt.Stmt.{Stmt};
ghost use Rattle.ddl_grammar.specs.Rows.{AreRows};
ghost use Rattle.ddl_scripts.specs.CopyRows.{Copied, rows_behind};
ghost use Rattle.ddl_scripts.specs.MetaLines.{IsSaid, meta_line};
ghost use Rattle.ddl_scripts.specs.LineExamples.{WorkedExamples};

/// The definitions give what is known of some texts.
pub fn the_definitions_meet_the_examples()
    ensures { WorkedExamples }
{}

/// Rows that stand behind a line feed and before the line `\.` are read back, and the end is behind that line.
pub fn written_rows_are_read_back()
    ensures { (front rows rest : List ℕ) → AreRows rows → rows_behind (front ++ (newline ∷ (rows ++ (end_mark ++ (newline ∷ rest))))) (length front)
        ≡ Ok (record { rows = rows; end = length front + 1 + length rows + 3 }) }
{}

/// What is read of a text are rows, and they end in the text, behind the place.
pub fn what_is_read_are_rows()
    ensures rows { (text : List ℕ) (at : ℕ) (c : Copied) → rows_behind text at ≡ Ok c → AreRows c.rows }
    ensures bounds { (text : List ℕ) (at : ℕ) (c : Copied) → at ≤ length text → rows_behind text at ≡ Ok c → (at ≤ c.end) × (c.end ≤ length text) }
{}

/// What a line says is nothing or a connection, whose name is one that a system table can keep and has no line feed.
pub fn what_a_line_says_is_a_name()
    ensures { (line : List ℕ) (s : Option Stmt) → list_all in_line line ≡ true → meta_line line ≡ Ok s → IsSaid s }
{}

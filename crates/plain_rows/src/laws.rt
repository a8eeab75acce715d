//! Laws of the definitions, each the contract of a function that does nothing.
ghost use Rattle.std.specs.Prelude.{◌≡◌, ◌∷◌, ◌++◌, ℕ, List, None, Ok, Some, [], map, true};
ghost use Rattle.std.specs.FinMap.{entries, get};
ghost use Rattle.std.specs.List.{AllByRecursion, filter_map};
ghost use Rattle.copy_text.specs.Lines.{data_lines};
ghost use Rattle.cat_model.specs.declared.class.Class.TheVariants as class;
ghost use Rattle.cat_model.specs.declared.key.Key.TheVariants as key;
ghost use Rattle.cat_model.specs.declared.object.QName.{QName};
ghost use Rattle.cat_model.specs.declared.value.Column.{Column};
ghost use Rattle.cat_model.specs.declared.value.Value.TheVariants as value;
ghost use Rattle.cat_model.specs.Values.{Bytes, Named};
ghost use Rattle.cat_model.specs.CopyEffect.{by_name, copy_rows, foreign_in, primary_columns, unique_in};
ghost use Rattle.cat_model.specs.KeyEffects.{rows_in};
ghost use Rattle.cat_model.specs.RowTexts.{rows_held};
ghost use Rattle.cat_model.specs.Tables.{orphan_of, repeated_after};
ghost use Rattle.cat_model.specs.Trees.{class_of, outcome, seen};
ghost use Rattle.row_keys.specs.ByPlaces.{key_at};
ghost use Rattle.rows_fit.specs.KeyCauses.{linked, parent_cause, unique_cause};
ghost use Rattle.plain_rows.specs.Lines.{LineFits, all_among, line_keys, none_again};

/// A text is copied into a table that has no rows where each of its lines fits the table, no two rows have a key in common
/// and each has its parents.
pub fn texts_that_fit_are_copied()
    ensures { (named : Named) (q : QName) (columns : List Column) (text : Bytes)
        → get named (key.Rel q) ≡ Some (value.Table columns)
        → rows_in (get named (key.Rows q)) ≡ []
        → AllByRecursion (LineFits columns (primary_columns (entries (class_of named (class.Constraints q))))) (data_lines text)
        → unique_cause (by_name (filter_map unique_in (entries (class_of named (class.Constraints q)) ++ entries (class_of named (class.Indexes q))))) columns (rows_held text) ≡ None
        → parent_cause (map (linked (seen named) q (rows_held text)) (filter_map foreign_in (entries (class_of named (class.Constraints q))))) columns (rows_held text) ≡ None
        → outcome (copy_rows q [] text) (seen named) ≡ Ok ((key.Rows q, Some (value.Rows (rows_held text))) ∷ []) }
{}

/// Keys of lines are those of the rows that a text holds: where none of them stands again, no two rows have one key in this
/// column; where all are among those of another text, no row lacks a parent there. A line that is no row counts for nothing.
pub fn keys_of_lines_are_those_of_rows()
    ensures differ { (columns : List Column) (place : ℕ) (text : Bytes)
        → none_again [] (line_keys columns place text) ≡ true → repeated_after [] (map (key_at columns (Some place ∷ [])) (rows_held text)) ≡ None }
    ensures among { (columns parent_columns : List Column) (place parent_place : ℕ) (text parent_text : Bytes)
        → all_among (line_keys parent_columns parent_place parent_text) (line_keys columns place text) ≡ true
        → orphan_of 1 (map (key_at parent_columns (Some parent_place ∷ [])) (rows_held parent_text)) (map (key_at columns (Some place ∷ [])) (rows_held text)) ≡ None }
{}

//! What the keys of a table say of its rows is what the effect of COPY tries, and rows that were read before are those of
//! their text.
ghost use Rattle.std.specs.Prelude.{◌≡◌, List, map, Ok};
ghost use Rattle.cat_model.specs.declared.object.QName.{QName};
ghost use Rattle.cat_model.specs.declared.value.Column.{Column};
ghost use Rattle.copy_text.specs.Lines.{data_lines};
ghost use Rattle.copy_text.specs.Reading.{row_of};
ghost use Rattle.cat_model.specs.Values.{Bytes, Row};
ghost use Rattle.cat_model.specs.CopiedRows.{copied_rows};
ghost use Rattle.cat_model.specs.Trees.{Tree, Seen, outcome};
ghost use Rattle.cat_model.specs.CopyEffect.{Unique, Foreign, all_unique, all_have_parents};
ghost use Rattle.rows_fit.specs.KeyCauses.{unique_cause, parent_cause, linked, refused_or};
ghost use Rattle.rows_fit.specs.Tried.{tried};

/// The conditions of COPY on all rows together say what the causes of keys say, and else what comes behind them.
pub fn copy_tries_these_keys()
    ensures unique { (us : List Unique) (columns : List Column) (rows : List Row) (next : Tree) (seen : Seen) → outcome (all_unique us columns rows next) seen ≡ refused_or (unique_cause us columns rows) (outcome next seen) }
    ensures parents { (q : QName) (fs : List Foreign) (columns : List Column) (added all : List Row) (next : Tree) (seen : Seen) → outcome (all_have_parents q fs columns added all next) seen ≡ refused_or (parent_cause (map (linked seen q all) fs) columns added) (outcome next seen) }
{}

/// Where the lines of a text read as exactly these rows, trying the rows gives what COPY reads of the text: the same rows,
/// or the same first cause.
pub fn read_rows_are_copied()
    ensures { (columns : List Column) (names primary : List Bytes) (text : Bytes) (rows : List Row) → map row_of (data_lines text) ≡ map Ok rows → tried columns names primary rows ≡ copied_rows columns names primary text }
{}

//! Laws of the definitions, each the contract of a function that does nothing.
ghost use Rattle.std.specs.Prelude.{◌≡◌, ℕ, true, Ok, List};
ghost use Rattle.std.specs.List.{list_all};
ghost use Rattle.std.specs.Result.{is_ok};
ghost use Rattle.cat_model.specs.RowTexts.{rows_held};
ghost use Rattle.cat_model.specs.Values.{Bytes, Row};
ghost use Rattle.data_rows.specs.Rows.{read_lines, rows_of};
ghost use Rattle.cat_naming.specs.Examples.{Types, Relations, Constraints, Renamed};
ghost use Rattle.cat_naming.specs.ValueExamples.{OneDomain, DefaultRights, SameRows};

use data_rows::laws::rows_are_what_their_lines_read;

/// Worked examples, computed from the definitions: what the rows of a small catalogue stand for, and that no oid and no
/// number of a column is left in it.
pub fn names_meet_the_examples()
    ensures types { Types }
    ensures relations { Relations }
    ensures constraints { Constraints }
    ensures renamed { Renamed }
{}

/// Worked examples, computed from the definitions: the checks of a domain, default rights, and the rows of a text.
pub fn values_meet_the_examples()
    ensures domains { OneDomain }
    ensures rights { DefaultRights }
    ensures rows { SameRows }
{}

/// A text that has rows for a table with some number of columns holds these rows, and each line of it is one.
pub fn checked_rows_are_held()
    ensures { (columns : ℕ) (text : Bytes) (rows : List Row) → rows_of columns text ≡ Ok rows → (list_all is_ok (read_lines text) ≡ true) × (rows_held text ≡ rows) }
{
    rows_are_what_their_lines_read();
}

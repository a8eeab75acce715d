//! Laws of the definitions, each the contract of a function that does nothing.
ghost use Rattle.std.specs.Prelude.{◌≡◌, ◌↔◌, true, All, None, Some};
ghost use Rattle.std.specs.List.{list_all};
ghost use Rattle.std.specs.Result.{is_ok};
ghost use Rattle.cat_rows.specs.declared.catalogue.Catalogue.{Catalogue};
ghost use Rattle.cat_names.specs.DataSets.{TextsByOid};
ghost use Rattle.data_rows.specs.Rows.{read_lines, rows_of};
ghost use Rattle.table_rows.specs.declared.fault.ValuesFault.{ValuesFault};
ghost use Rattle.table_rows.specs.Tables.{table_oids, column_count};
ghost use Rattle.table_rows.specs.Values.{text_of, values_fault, FailsFirst};
ghost use Rattle.table_rows.specs.Examples.{Tables, Texts};

use data_rows::laws::rows_are_what_their_lines_read;

/// Texts have no fault exactly where the text of each table has rows for it. Then each line of each of these texts
/// reads as a row.
pub fn texts_without_fault_have_rows()
    ensures rows { (cat : Catalogue) (rows : TextsByOid)
        → (values_fault cat rows ≡ None) ↔ All (λ oid. is_ok (rows_of (column_count cat oid) (text_of rows oid)) ≡ true) (table_oids cat) }
    ensures lines { (cat : Catalogue) (rows : TextsByOid) → values_fault cat rows ≡ None
        → All (λ oid. list_all is_ok (read_lines (text_of rows oid)) ≡ true) (table_oids cat) }
{
    rows_are_what_their_lines_read();
}

/// A fault of texts is that of the text of its table, and the texts of all tables before it have rows.
pub fn the_first_fault_is_told()
    ensures { (cat : Catalogue) (rows : TextsByOid) (fault : ValuesFault) → values_fault cat rows ≡ Some fault → FailsFirst cat rows fault }
{}

/// Worked examples, computed from the definitions.
pub fn worked_examples()
    ensures tables { Tables }
    ensures texts { Texts }
{}

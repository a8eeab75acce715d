//! Laws of the format, each the contract of a function that does nothing.
ghost use Rattle.std.specs.Prelude.{◌≡◌, ◌≢◌, ◌↔◌, ℕ, List, All, Some, Ok, Err};
ghost use Rattle.copy_text.specs.Marks.{newline};
ghost use Rattle.copy_text.specs.Rows.{Field, IsField};
ghost use Rattle.cat_rows.specs.declared.table.SysTable.{SysTable};
ghost use Rattle.cat_rows.specs.declared.kind.ColKind.{ColKind};
ghost use Rattle.cat_rows.specs.declared.kind.ColKind.TheVariants as kinds;
ghost use Rattle.cat_rows.specs.declared.cell.Cell.{Cell};
ghost use Rattle.cat_rows.specs.declared.fault.RowFault.{RowFault};
ghost use Rattle.cat_rows.specs.declared.fault.TableFault.{TableFault};
ghost use Rattle.cat_rows.specs.Cells.{cell_of, field_of, kind_of, IsCell};
ghost use Rattle.cat_rows.specs.Reading.{cells_of, table_of};
ghost use Rattle.cat_rows.specs.Holds.{HoldsRow, HoldsRows, IsRowFault, IsFirstFaultOf};
ghost use Rattle.cat_rows.specs.Order.{IsInOrder};
ghost use Rattle.cat_rows.specs.Writing.{text_of, AreRowsOf};
ghost use Rattle.cat_rows.specs.Examples.{Oids, Integers, OtherCells, SchemaLines, SchemaTables, Orders};

use acl_text::laws::{read_list_can_be_written, written_list_is_a_text, written_list_reads};
use copy_text::laws::{
    reading_is_exact, spelled_row_can_be_written, tests_are_exact, written_row_is_spelled,
};

/// What is written for a cell is that cell, and no other field is, but for lists of rights: there quotes that aren't
/// needed may stand too. So `010` is no oid and `-0` no integer.
pub fn one_spelling_a_cell()
    ensures written { (cell : Cell) → IsCell cell → cell_of (kind_of cell) (field_of cell) ≡ Some cell }
    ensures only { (kind : ColKind) (field : Field) (cell : Cell) → kind ≢ kinds.Acl → cell_of kind field ≡ Some cell → field ≡ field_of cell }
    ensures kind { (kind : ColKind) (field : Field) (cell : Cell) → cell_of kind field ≡ Some cell → kind_of cell ≡ kind }
    ensures cell { (kind : ColKind) (field : Field) (cell : Cell) → IsField field → cell_of kind field ≡ Some cell → IsCell cell }
{
    tests_are_exact();
    written_list_reads();
    read_list_can_be_written();
}

/// Reading a line gives cells exactly where the line holds them, and a fault exactly where it is the line's first.
pub fn reading_a_line_is_exact()
    ensures row { (columns : List ColKind) (line : List ℕ) (row : List Cell) → All (λ b. b ≢ newline) line
        → (cells_of columns line ≡ Ok row) ↔ HoldsRow columns line row }
    ensures fault { (columns : List ColKind) (line : List ℕ) (fault : RowFault) → All (λ b. b ≢ newline) line
        → (cells_of columns line ≡ Err fault) ↔ IsRowFault columns line fault }
{
    reading_is_exact();
}

/// Reading a text gives rows exactly where the text holds them for the table, and a fault exactly where it is the
/// text's first.
pub fn reading_a_table_is_exact()
    ensures rows { (table : SysTable) (text : List ℕ) (rows : List (List Cell)) → (table_of table text ≡ Ok rows) ↔ HoldsRows table text rows }
    ensures fault { (table : SysTable) (text : List ℕ) (first : TableFault) → (table_of table text ≡ Err first) ↔ IsFirstFaultOf table text first }
{
    reading_is_exact();
}

/// What is written for rows of a table reads as these rows.
pub fn written_rows_read()
    ensures { (table : SysTable) (rows : List (List Cell)) → AreRowsOf table rows → table_of table (text_of rows) ≡ Ok rows }
{
    tests_are_exact();
    written_row_is_spelled();
    reading_is_exact();
    written_list_reads();
    written_list_is_a_text();
}

/// Rows that were read can be written.
pub fn read_rows_can_be_written()
    ensures { (table : SysTable) (text : List ℕ) (rows : List (List Cell)) → table_of table text ≡ Ok rows → AreRowsOf table rows }
{
    tests_are_exact();
    reading_is_exact();
    spelled_row_can_be_written();
    read_list_can_be_written();
}

/// Rows have one order in a table, and rows that stand in it stay as they are.
pub fn rows_have_one_order()
    ensures one { (table : SysTable) (rows written other : List (List Cell)) → IsInOrder table rows written → IsInOrder table rows other → written ≡ other }
    ensures kept { (table : SysTable) (rows written : List (List Cell)) → IsInOrder table rows written → IsInOrder table written written }
{}

/// Worked examples, computed from the definitions.
pub fn worked_examples()
    ensures oids { Oids }
    ensures integers { Integers }
    ensures other_cells { OtherCells }
    ensures lines { SchemaLines }
    ensures tables { SchemaTables }
    ensures orders { Orders }
{}

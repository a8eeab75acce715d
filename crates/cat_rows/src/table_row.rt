//! What the rows of each system table have in common.
ghost use Rattle.std.specs.Prelude.{◌≡◌, ◌≤◌, ◌++◌, length, map, OnOk, List};
ghost use Rattle.cat_rows.specs.declared.table.SysTable.{SysTable as Table};
ghost use Rattle.cat_rows.specs.declared.cell.Cell.{Cell as CellValue};
ghost use Rattle.cat_rows.specs.Kinds.{columns};
ghost use Rattle.cat_rows.specs.Cells.{field_of};
ghost use Rattle.cat_rows.specs.Writing.{IsRowOf};
ghost use Rattle.cat_rows.specs.Order.{key_of};
ghost use Rattle.cat_rows.specs.Reading.{GivesRow, cells_at};

use crate::columns::Columns;
use crate::fault::ReadCellsError;
use crate::fields::Fields;
use std::alloc::AllocError;

/// A row of a system table. It is seen as its cells, in the order of the table's columns.
pub(crate) trait TableRow: Drop {
    ghost table: { Table };

    ghost cells: { Self → List CellValue };

    /// The number of the table's columns.
    fn width() -> usize
        ensures width { result ≡ length (columns table) }
        ensures few { result ≤ 64 };

    /// The row of these columns, or the first bad one.
    fn read(row: Columns) -> Result<Self, ReadCellsError>
        ensures { GivesRow cells result (cells_at (columns table) row) };

    /// Adds the row's fields.
    fn write(&self, fields: &mut Fields) -> Result<(), AllocError>
        ensures fields { OnOk result (fields.new ≡ fields.old ++ map field_of (cells self.now)) }
        ensures cells { OnOk result (IsRowOf table (cells self.now)) };

    /// The numbers by which the table's rows are put in order.
    fn key(&self) -> (i64, i64, i64)
        ensures { result ≡ key_of table (cells self.now) };
}

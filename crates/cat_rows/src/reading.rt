//! Cells from lines.
ghost use Rattle.std.specs.Prelude.{◌≡◌, ◌≢◌, ◌≤◌, ◌<◌, length, All};
ghost use Rattle.copy_text.specs.Marks.{newline};
ghost use Rattle.cat_rows.specs.Kinds.{columns};
ghost use Rattle.cat_rows.specs.Reading.{GivesRow, row_start, cells_of};

use crate::cell::Cells;
use crate::columns::Columns;
use crate::fault::{ReadCellsError, RowFault};
use crate::kind::TableSpec;
use crate::table_row::TableRow;
use copy_text::{ReadRowError, read_row};
use std::alloc::Global;

/// The cells of a line without its newline: exactly N, of the table's kinds in order. See
/// <https://www.postgresql.org/docs/16/sql-copy.html>.
#[tactic(auto, unfolding(crate::specs::Reading::cells_of))]
pub fn read_cells<const N: usize>(
    alloc: Global,
    spec: &TableSpec<N>,
    line: &[u8],
) -> Result<Cells<N>, ReadCellsError>
    requires some { 1 ≤ N }
    requires few { N ≤ 64 }
    requires one_line { All (λ b. b ≢ newline) line.now }
    ensures { GivesRow (λ cells. cells) result (cells_of spec.now.columns line.now) }
{
    let mut columns = start_row(alloc, line, N)?;
    let mut cells = Vec::with_capacity(alloc, N)?;
    for kind in &spec.columns {
        cells.push(columns.cell(*kind)?)?;
    }
    Ok(Cells::new(cells))
}

/// The row of a table that a line spells.
#[tactic(auto, unfolding(crate::specs::Reading::cells_of))]
pub(crate) fn read_line<R: TableRow>(alloc: Global, line: &[u8]) -> Result<R, ReadCellsError>
    requires one_line { All (λ b. b ≢ newline) line.now }
    ensures { GivesRow R.cells result (cells_of (columns R.table) line.now) }
{
    let columns = start_row(alloc, line, R::width())?;
    R::read(columns)
}

#[tactic(auto, unfolding(crate::specs::Reading::row_start))]
fn start_row(alloc: Global, line: &[u8], width: usize) -> Result<Columns, ReadCellsError>
    requires few { width ≤ 64 }
    requires one_line { All (λ b. b ≢ newline) line.now }
    ensures { GivesRow (λ place. place) result (row_start width line.now) }
{
    let fields = match read_row(alloc, line) {
        Ok(row) => row.into_fields(),
        Err(ReadRowError::Fault(fault)) => {
            return Err(ReadCellsError::Fault(RowFault::Copy(fault)));
        }
        Err(ReadRowError::Memory) => return Err(ReadCellsError::Memory),
    };
    if fields.len() != width {
        return Err(ReadCellsError::Fault(RowFault::Columns(fields.len() as u64)));
    }
    Ok(Columns::new(alloc, fields))
}

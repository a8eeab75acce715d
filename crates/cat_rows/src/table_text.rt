//! The texts of tables: their rows, one a line.
ghost use Rattle.std.specs.Prelude.{◌≡◌, ◌≢◌, ◌≤◌, ◌<◌, ◌^◌, [], ◌∷◌, ◌++◌, List, length, map, All, OnOk, OnErr, IfOk};
ghost use Rattle.copy_text.specs.Marks.{newline};
ghost use Rattle.copy_text.specs.Rows.{Extends, spell_row};
ghost use Rattle.cat_rows.specs.Kinds.{columns};
ghost use Rattle.cat_rows.specs.Cells.{field_of, IsCell};
ghost use Rattle.cat_rows.specs.Order.{IsInOrder};
ghost use Rattle.cat_rows.specs.declared.cell.Cell.{Cell as CellValue};
ghost use Rattle.cat_rows.specs.Reading.{GivesTable, at_line, cells_of, table_of};
ghost use Rattle.cat_rows.specs.Writing.{text_of, IsRowOf, AreRowsOf, IsWritten};

use crate::fault::{ReadCellsError, ReadTableError, TableFault};
use crate::fields::Fields;
use crate::laws::written_rows_read;
use crate::reading::read_line;
use crate::row_list::Rows;
use crate::table_row::TableRow;
use copy_text::{Line, next_line, write_row};
use std::alloc::{AllocError, Global};

/// Replaces the rows by those of a text. After an `Err` they are unchanged.
pub(crate) fn read_into<R: TableRow>(
    alloc: Global,
    text: &[u8],
    rows: &mut Rows<R>,
) -> Result<(), ReadTableError>
    ensures read { GivesTable (λ _. map R.cells rows.new) result (table_of R.table text.now) }
    ensures err { OnErr result (rows.new ≡ rows.old) }
{
    let read = read_rows(alloc, text)?;
    *rows = Rows::from_vec(read);
    Ok(())
}

/// The rows that a text holds, or the first line without one and its fault.
fn read_rows<R: TableRow>(alloc: Global, text: &[u8]) -> Result<Vec<R>, ReadTableError>
    ensures { GivesTable (λ rows. map R.cells rows.items) result (table_of R.table text.now) }
{
    let mut rows = Vec::new(alloc);
    let mut at = 0;
    let mut number = 1;
    while let Line::Row { start, end, next } = next_line(text, at) {
        rows.push(read_numbered(alloc, number, &text[start..end])?)?;
        number += 1;
        at = next;
    }
    Ok(rows)
}

// The row of the line of this number.
fn read_numbered<R: TableRow>(alloc: Global, number: u64, line: &[u8]) -> Result<R, ReadTableError>
    requires one_line { All (λ b. b ≢ newline) line.now }
    ensures { GivesTable R.cells result (at_line number (cells_of (columns R.table) line.now)) }
{
    match read_line(alloc, line) {
        Ok(row) => Ok(row),
        Err(ReadCellsError::Fault(fault)) => Err(ReadTableError::Fault(TableFault {
            line: number,
            fault,
        })),
        Err(ReadCellsError::Memory) => Err(ReadTableError::Memory),
    }
}

/// Appends the text of the rows in their table's order. After an `Err` nothing was appended.
pub(crate) fn write_rows<R: TableRow>(
    alloc: Global,
    rows: &[R],
    out: &mut Vec<u8>,
) -> Result<(), AllocError>
    ensures ok { OnOk result ((written : List (List CellValue)) × IsWritten R.table (map R.cells rows.now) written out.old.items out.new.items) }
    ensures err { OnErr result (out.new.items ≡ out.old.items) }
{
    written_rows_read();
    let order = in_order(alloc, rows)?;
    let len = out.len();
    let written = write_lines(alloc, &order, out);
    if written.is_err() {
        out.truncate(len);
    }
    written
}

// The rows in their table's order.
fn in_order<R: TableRow>(alloc: Global, rows: &[R]) -> Result<Vec<&R>, AllocError>
    ensures { IfOk result (λ order. IsInOrder R.table (map R.cells rows.now) (map (λ r. R.cells r.now) order.items)) }
{
    let mut order = borrowed(alloc, rows)?;
    order.sort_by_key(|row| row.key())?;
    Ok(order)
}

fn borrowed<R>(alloc: Global, rows: &[R]) -> Result<Vec<&R>, AllocError>
    ensures { IfOk result (λ refs. map (λ r. r.now) refs.items ≡ rows.now) }
{
    rows.iter().collect(alloc)
}

// Appends the lines of the rows.
fn write_lines<R: TableRow>(alloc: Global, rows: &[&R], out: &mut Vec<u8>) -> Result<(), AllocError>
    ensures lines { OnOk result (out.new.items ≡ out.old.items ++ text_of (map (λ r. R.cells r.now) rows.now)) }
    ensures cells { OnOk result (AreRowsOf R.table (map (λ r. R.cells r.now) rows.now)) }
    ensures kept { Extends out.old.items out.new.items }
{
    for row in rows {
        write_line(alloc, *row, out)?;
    }
    Ok(())
}

// Appends the line of a row.
fn write_line<R: TableRow>(alloc: Global, row: &R, out: &mut Vec<u8>) -> Result<(), AllocError>
    ensures line { OnOk result (out.new.items ≡ out.old.items ++ (spell_row (map field_of (R.cells row.now)) ++ newline ∷ [])) }
    ensures cells { OnOk result (IsRowOf R.table (R.cells row.now)) }
    ensures err { OnErr result (out.new.items ≡ out.old.items) }
{
    let mut fields = Fields::new(alloc);
    row.write(&mut fields)?;
    write_row(fields.as_slice(), out)
}

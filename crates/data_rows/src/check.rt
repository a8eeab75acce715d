//! Whether a text holds rows of a table, and how many.
ghost use Rattle.std.specs.Prelude.{◌≡◌, ◌≢◌, All, IfOk};
ghost use Rattle.std.specs.Result.{result_err};
ghost use Rattle.copy_text.specs.Marks.{newline};
ghost use Rattle.copy_text.specs.Reading.{row_of};
ghost use Rattle.data_rows.specs.Rows.{rows_of, checked_row, GivesCount};

use crate::fault::{CheckRowsError, DataFault, RowsFault};
use crate::lines::{read_line, split_line};
use std::alloc::{AllocError, Global};

/// How many rows a text in COPY text format holds for a table with this many columns.
///
/// The rows end at the line `\.` or at the text's end; what stands behind that line isn't looked at. A table without
/// columns holds no row. Beside the text it takes memory for one row at a time.
///
/// `Fault` tells the first row, counted from 1, that isn't COPY text (`BadRow`) or else has another number of fields
/// than the table has columns (`Fields`). `Memory` may be answered for any text. See
/// <https://www.postgresql.org/docs/16/sql-copy.html>.
pub fn check_rows(alloc: Global, text: &[u8], columns: usize) -> Result<u64, CheckRowsError>
    ensures { GivesCount result (rows_of columns text.now) }
{
    let mut count = 0;
    let mut rest = text;
    while let Some((line, behind)) = split_line(rest) {
        if let Some(fault) = row_fault(alloc, line, columns)? {
            let first = RowsFault {
                row: count + 1,
                fault,
            };
            return Err(CheckRowsError::Fault(first));
        }
        count += 1;
        rest = behind;
    }
    Ok(count)
}

// What is wrong with a line as a row of a table with this many columns, if anything is.
fn row_fault(alloc: Global, line: &[u8], columns: usize) -> Result<Option<DataFault>, AllocError>
    requires one_line { All (λ b. b ≢ newline) line.now }
    ensures { IfOk result (λ fault. fault ≡ result_err (checked_row columns (row_of line.now))) }
{
    match read_line(alloc, line)? {
        Ok(row) => {
            let found = row.fields().len();
            Ok((found != columns).then_some(DataFault::Fields(found as u64)))
        }
        Err(fault) => Ok(Some(DataFault::BadRow(fault))),
    }
}

//! Whether a text holds rows of a table, and how many.
ghost use Rattle.std.specs.Prelude.{◌≡◌, ◌≢◌, All, IfOk, List, Ok, length};
ghost use Rattle.copy_text.specs.Rows.{Field};
ghost use Rattle.std.specs.Result.{result_err};
ghost use Rattle.copy_text.specs.Marks.{newline};
ghost use Rattle.copy_text.specs.Reading.{row_of};
ghost use Rattle.data_rows.specs.Rows.{rows_of, checked_row, GivesCount};

use crate::counted::quick_count;
use crate::plain::PlainRow;
use copy_text::{CopyFault, Row};
use data_rows::{CheckRowsError, DataFault, RowsFault, read_line, split_line};
use std::alloc::{AllocError, Global};

/// How many rows a text in COPY text format holds for a table with this many columns, as `data_rows::check_rows` tells, and
/// quicker: of a text without an escape only the tabs of each line are counted, and else a line that can be taken as it stands
/// isn't copied.
///
/// `Fault` tells the first row, counted from 1, that isn't COPY text (`BadRow`) or else has another number of fields
/// than the table has columns (`Fields`). `Memory` may be answered for any text. See
/// <https://www.postgresql.org/docs/16/sql-copy.html>.
pub fn check_rows(alloc: Global, text: &[u8], columns: usize) -> Result<u64, CheckRowsError>
    ensures { GivesCount result (rows_of columns text.now) }
{
    match quick_count(text, columns) {
        Some(count) => Ok(count),
        None => check_lines(alloc, text, columns),
    }
}

// The same, line by line.
fn check_lines(alloc: Global, text: &[u8], columns: usize) -> Result<u64, CheckRowsError>
    ensures { GivesCount result (rows_of columns text.now) }
{
    let mut count = 0;
    let mut plain = PlainRow::new(alloc);
    let mut rest = text;
    while let Some((line, behind)) = split_line(rest) {
        if let Some(fault) = row_fault(alloc, &mut plain, line, columns)? {
            let first = RowsFault {
                row: count + 1,
                fault,
            };
            return Err(CheckRowsError::Fault(first));
        }
        count += 1;
        rest = behind;
    }
    Ok(count)
}

// What is wrong with a line as a row of a table with this many columns, if anything is.
fn row_fault<'t>(
    alloc: Global,
    plain: &mut PlainRow<'t>,
    line: &'t [u8],
    columns: usize,
) -> Result<Option<DataFault>, AllocError>
    requires { All (λ b. b ≢ newline) line.now }
    ensures { IfOk result (λ fault. fault ≡ result_err (checked_row columns (row_of line.now))) }
{
    if plain.read(line)? {
        Ok(fields_fault(plain.len(), columns))
    } else {
        Ok(read_fault(read_line(alloc, line)?, columns))
    }
}

fn fields_fault(found: usize, columns: usize) -> Option<DataFault>
    ensures { (row : List Field) → found ≡ length row → result ≡ result_err (checked_row columns (Ok row)) }
{
    (found != columns).then_some(DataFault::Fields(found as u64))
}

fn read_fault(read: Result<Row, CopyFault>, columns: usize) -> Option<DataFault>
    ensures { result ≡ result_err (checked_row columns read) }
{
    match read {
        Ok(row) => fields_fault(row.fields().len(), columns),
        Err(fault) => Some(DataFault::BadRow(fault)),
    }
}

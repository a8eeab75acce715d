//! The rows of a COPY text.
ghost use Rattle.std.specs.Prelude.{◌≡◌, ◌≢◌, List, Option, ℕ, length, map, All, Ok, IfOk};
ghost use Rattle.std.specs.Option.{option_map};
ghost use Rattle.copy_text.specs.Marks.{newline};
ghost use Rattle.copy_text.specs.Lines.{data_lines};
ghost use Rattle.copy_text.specs.Reading.{row_of};
ghost use Rattle.cat_model.specs.CopiedRows.{copied_rows, row_read, rows_read, row_or, fields_cause, no_null};
ghost use Rattle.rows_fit.specs.Plans.{Stands};
ghost use Rattle.rows_fit.specs.Causes.{row_or_cause, rows_or_cause};
ghost use Rattle.rows_fit.specs.Tried.{tried, tried_from};

use crate::fault::{RowFault, cause_of};
use crate::fields::{fields_fault, required};
use crate::order::{field_order, ordered};
use cat_model::{Cause, Items};
use copy_text::{Name, Row};
use data_rows::{read_line, split_line};
use field_values::{ColumnValues, TableColumns};
use std::alloc::{AllocError, Global};

/// The rows that a COPY text gives for a table, with its fields in the order of the table's columns, or the first
/// cause for which it is refused: row by row, and in each row column by column.
///
/// `names` are the columns of the text's fields; where there are none, all the table's in order. `primary` are the
/// columns of the table's primary key. The error says that there was no memory. See
/// <https://www.postgresql.org/docs/16/sql-copy.html>.
pub fn copied_rows(
    alloc: Global,
    columns: &TableColumns,
    names: &[Name],
    primary: &[Name],
    text: &[u8],
) -> Result<Result<Items<Row>, Cause>, AllocError>
    ensures { IfOk result (λ rows. rows ≡ copied_rows columns.now names.now primary.now text.now) }
{
    let required = required(alloc, columns.as_slice(), primary)?;
    let order = field_order(alloc, columns.as_slice(), names)?;
    let read = rows_read(alloc, columns.as_slice(), &order, &required, text)?;
    Ok(as_cause(read))
}

/// The same for rows whose fields were read before: what `copied_rows` gives for each text whose lines read as these
/// rows, as a law says. The error says that there was no memory.
pub fn tried_rows(
    alloc: Global,
    columns: &TableColumns,
    names: &[Name],
    primary: &[Name],
    rows: Vec<Row>,
) -> Result<Result<Items<Row>, Cause>, AllocError>
    ensures { IfOk result (λ read. read ≡ tried columns.now names.now primary.now rows.items) }
{
    let required = required(alloc, columns.as_slice(), primary)?;
    let order = field_order(alloc, columns.as_slice(), names)?;
    let read = rows_tried(alloc, columns.as_slice(), &order, &required, rows)?;
    Ok(as_cause(read))
}

// The rows that were read, or the first row that wasn't, by its number, and why.
type Read = Result<Items<Row>, (u64, RowFault)>;

fn as_cause(read: Read) -> Result<Items<Row>, Cause>
    ensures { result ≡ rows_or_cause read }
{
    match read {
        Ok(rows) => Ok(rows),
        Err((row, fault)) => Err(cause_of(row, fault)),
    }
}

fn rows_read(
    alloc: Global,
    columns: &[ColumnValues],
    order: &Option<Vec<Option<usize>>>,
    required: &[bool],
    text: &[u8],
) -> Result<Read, AllocError>
    requires { length required.now ≡ length columns.now }
    ensures { IfOk result (λ rows. (names primary : List (List ℕ)) → Stands columns.now names primary (option_map (λ o. o.items) order.now) required.now → rows_or_cause rows ≡ rows_read columns.now names primary 1 (data_lines text.now)) }
{
    let mut rows = Vec::new(alloc);
    let mut rest = text;
    let mut number = 0u64;
    while let Some((line, behind)) = split_line(rest) {
        number += 1;
        match row_read(alloc, columns, order, required, line)? {
            Ok(row) => rows.push(row)?,
            Err(fault) => return Ok(Err((number, fault))),
        }
        rest = behind;
    }
    Ok(Ok(Items::new(rows)))
}

fn rows_tried(
    alloc: Global,
    columns: &[ColumnValues],
    order: &Option<Vec<Option<usize>>>,
    required: &[bool],
    rows: Vec<Row>,
) -> Result<Read, AllocError>
    requires { length required.now ≡ length columns.now }
    ensures { IfOk result (λ read. (names primary : List (List ℕ)) → Stands columns.now names primary (option_map (λ o. o.items) order.now) required.now → rows_or_cause read ≡ tried_from columns.now names primary 1 rows.items) }
{
    let mut fit = Vec::new(alloc);
    let mut number = 0u64;
    let mut left = rows.into_iter();
    'rows: while let Some(row) = left.next() {
        number += 1;
        match checked_row(alloc, columns, order, required, row)? {
            Ok(row) => fit.push(row)?,
            Err(fault) => return Ok(Err((number, fault))),
        }
    }
    Ok(Ok(Items::new(fit)))
}

fn row_read(
    alloc: Global,
    columns: &[ColumnValues],
    order: &Option<Vec<Option<usize>>>,
    required: &[bool],
    line: &[u8],
) -> Result<Result<Row, RowFault>, AllocError>
    requires lengths { length required.now ≡ length columns.now }
    requires one_line { All (λ b. b ≢ newline) line.now }
    ensures { IfOk result (λ row. (names primary : List (List ℕ)) (number : ℕ) → Stands columns.now names primary (option_map (λ o. o.items) order.now) required.now → row_or_cause number row ≡ row_read columns.now names primary number (row_of line.now)) }
{
    match read_line(alloc, line)? {
        Ok(row) => Ok(checked_row(alloc, columns, order, required, row)?),
        Err(fault) => Ok(Err(RowFault::BadRow(fault))),
    }
}

// The row of these fields, where each column takes its own.
fn checked_row(
    alloc: Global,
    columns: &[ColumnValues],
    order: &Option<Vec<Option<usize>>>,
    required: &[bool],
    row: Row,
) -> Result<Result<Row, RowFault>, AllocError>
    requires { length required.now ≡ length columns.now }
    ensures { IfOk result (λ fields. (names primary : List (List ℕ)) (number : ℕ) → Stands columns.now names primary (option_map (λ o. o.items) order.now) required.now → row_or_cause number fields ≡ row_read columns.now names primary number (Ok row)) }
{
    let found = row.fields().len();
    if found != columns.len() {
        return Ok(Err(RowFault::Fields(found as u64)));
    }
    let row = ordered(alloc, order, row)?;
    Ok(taken(columns, required, row))
}

fn taken(columns: &[ColumnValues], required: &[bool], row: Row) -> Result<Row, RowFault>
    requires { length required.now ≡ length columns.now }
    ensures { (primary : List (List ℕ)) (number : ℕ) → required.now ≡ map (no_null primary) columns.now → row_or_cause number result ≡ row_or row (fields_cause primary number 1 columns.now row) }
{
    match fields_fault(columns, required, row.fields()) {
        Some(fault) => Err(fault),
        None => Ok(row),
    }
}

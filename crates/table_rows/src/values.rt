//! Whether texts hold the rows of their tables.
ghost use Rattle.std.specs.Prelude.{◌≡◌};
ghost use Rattle.data_rows.specs.Rows.{rows_of};
ghost use Rattle.cat_names.specs.Lookups.{count_of};
ghost use Rattle.table_rows.specs.Values.{fault_in, text_of, first_fault, values_fault, GivesCheck};

use crate::fault::{CheckValuesError, ValuesFault};
use crate::tables::{column_counts, table_oids};
use cat_names::{DataSet, OidCounts};
use cat_rows::Catalogue;
use data_rows::CheckRowsError;
use row_fields::check_rows;
use std::alloc::Global;

/// Goes on where the text of each table holds rows of the table: each a line in COPY text format, with as many fields
/// as the table has columns. A table for which no text was put has the empty text, which holds no rows.
///
/// `Fault` tells the first table by rising oid whose text doesn't, and its first row that fails. `Memory` may be
/// answered for any texts.
#[tactic(auto, unfolding(crate::specs::Values::values_fault))]
pub fn check_values(alloc: Global, cat: &Catalogue, rows: &DataSet) -> Result<(), CheckValuesError>
    ensures { GivesCheck result (values_fault cat.now rows.now) }
{
    let columns = column_counts(alloc, cat.pg_attribute.as_slice())?;
    let tables = table_oids(alloc, cat)?;
    check_tables(alloc, &tables, &columns, rows)
}

/// Goes on where the texts of these tables hold rows of them.
fn check_tables(
    alloc: Global,
    tables: &[u32],
    columns: &OidCounts,
    rows: &DataSet,
) -> Result<(), CheckValuesError>
    ensures { GivesCheck result (first_fault (count_of columns.now) (text_of rows.now) tables.now) }
{
    for table in tables {
        check_table(alloc, *table, columns.count(*table), text_of(rows, *table))?;
    }
    Ok(())
}

/// Goes on where the text of a table with this many columns holds rows of it.
fn check_table(
    alloc: Global,
    table: u32,
    columns: usize,
    text: &[u8],
) -> Result<(), CheckValuesError>
    ensures { GivesCheck result (fault_in table (rows_of columns text.now)) }
{
    match check_rows(alloc, text, columns) {
        Ok(_) => Ok(()),
        Err(CheckRowsError::Fault(first)) => Err(CheckValuesError::Fault(ValuesFault {
            table,
            row: first.row,
            fault: first.fault,
        })),
        Err(CheckRowsError::Memory) => Err(CheckValuesError::Memory),
    }
}

/// The text of a table's rows.
fn text_of(rows: &DataSet, table: u32) -> &[u8]
    ensures { result.now ≡ text_of rows.now table }
{
    match rows.text(table) {
        Some(text) => text,
        None => b"",
    }
}

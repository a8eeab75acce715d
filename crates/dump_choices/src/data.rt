//! The rows that a dump reads.
ghost use Rattle.std.specs.Prelude.{◌≡◌, [], ◌∷◌, ◌++◌, map, length, IfOk, OnOk};
ghost use Rattle.std.specs.List.{filter};
ghost use Rattle.dump_rows.specs.Rows.{columns_of};
ghost use Rattle.dump_choices.specs.Data.{data_of, table_data};

use cat_book::Book;
use dump_rows::DumpRows;
use std::alloc::{AllocError, Global};
use toc_entry::Entry;
use well_formed::WellFormed;

/// The rows of a table that an entry of a dump has.
#[derive(Clone, Copy)]
pub struct TableData {
    /// The dump id of the entry.
    pub dump_id: u32,
    /// The oid of the table.
    pub table: u32,
    /// How many columns the table has, and so how many fields each of its rows.
    pub columns: usize,
}

// The rows of an entry.
fn data_of(alloc: Global, rows: &DumpRows<'_>, entry: &Entry) -> Result<TableData, AllocError>
    ensures { IfOk result (λ found. found ≡ data_of rows.now entry.now) }
{
    let columns = rows.columns_of(alloc, entry.oid)?;
    Ok(TableData {
        dump_id: entry.dump_id,
        table: entry.oid,
        columns: columns.len(),
    })
}

// Adds those of an entry, where it has rows.
fn push_data(
    alloc: Global,
    rows: &DumpRows<'_>,
    entry: &Entry,
    found: &mut Vec<TableData>,
) -> Result<(), AllocError>
    ensures { OnOk result (found.new.items ≡ found.old.items ++ table_data rows.now (entry.now ∷ [])) }
{
    if entry.has_rows {
        found.push(data_of(alloc, rows, entry)?)?;
    }
    Ok(())
}

// Those of all entries that have rows.
fn of_entries(
    alloc: Global,
    rows: &DumpRows<'_>,
    entries: &[Entry],
) -> Result<Vec<TableData>, AllocError>
    ensures { IfOk result (λ found. found.items ≡ table_data rows.now entries.now) }
{
    let mut found = Vec::new(alloc);
    for entry in entries {
        push_data(alloc, rows, entry, &mut found)?;
    }
    Ok(found)
}

// The same, with the rows of the book's catalogue.
fn of_book<'a>(
    alloc: Global,
    book: &'a Book<'a>,
    entries: &[Entry],
) -> Result<Vec<TableData>, AllocError>
    ensures { IfOk result (λ found. found.items ≡ table_data book.now entries.now) }
{
    let rows = DumpRows::of(alloc, book)?;
    of_entries(alloc, &rows, entries)
}

/// The rows that a dump with these entries reads, in the order of the entries: of each entry that has rows, its dump id, the
/// oid of its table, and how many columns the table has.
///
/// The only error is that memory ran out.
pub fn table_data(
    alloc: Global,
    cat: &WellFormed,
    entries: &[Entry],
) -> Result<Vec<TableData>, AllocError>
    ensures { IfOk result (λ found. found.items ≡ table_data cat.now entries.now) }
{
    let book = cat.book(alloc)?;
    of_book(alloc, &book, entries)
}

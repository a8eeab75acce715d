//! The numbers of an opening's columns.
ghost use Rattle.std.specs.Prelude.{◌≡◌, OnOk, IfOk};
ghost use Rattle.std.specs.FinMap.{empty};
ghost use Rattle.cat_book.specs.Paths.{class_path_of};
ghost use Rattle.opening_ids.specs.Opening.{numbered, opening_numbers};

use cat_book::Book;
use cat_rows::AttributeRow;
use column_numbers::Numbers;
use std::alloc::{AllocError, Global};

// Gives a column its number.
fn number_row(book: &Book<'_>, numbers: &mut Numbers, row: &AttributeRow) -> Result<(), AllocError>
    ensures { OnOk result (numbers.new ≡ numbered numbers.old row.now (class_path_of book.now row.now.attrelid)) }
{
    match book.class_path_of(row.attrelid)? {
        Some(path) => numbers.put(&path, &row.attname, row.attnum),
        None => Ok(()),
    }
}

fn number_rows(
    book: &Book<'_>,
    numbers: &mut Numbers,
    rows: &[AttributeRow],
) -> Result<(), AllocError>
    ensures { OnOk result (numbers.new ≡ opening_numbers book.now numbers.old rows.now) }
{
    for row in rows {
        number_row(book, numbers, row)?;
    }
    Ok(())
}

/// The numbers of an opening's columns, by the paths of their relations and their names; of two rows the later counts. The only
/// error is want of memory.
pub fn opening_numbers(alloc: Global, book: &Book<'_>) -> Result<Numbers, AllocError>
    ensures { IfOk result (λ numbers. numbers ≡ opening_numbers book.now empty book.now.pg_attribute) }
{
    let mut numbers = Numbers::new(alloc);
    number_rows(book, &mut numbers, book.tables().pg_attribute.as_slice())?;
    Ok(numbers)
}

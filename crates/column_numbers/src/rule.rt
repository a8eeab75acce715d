//! Which numbers columns get.
ghost use Rattle.std.specs.Prelude.{◌≡◌, ◌+◌, ◌<◌, ◌≤◌, pos, map, IfOk, OnOk};
ghost use Rattle.std.specs.FinMap.{empty, insert};
ghost use Rattle.std.specs.Map.Iter.{deref_pair};
ghost use Rattle.cat_model.specs.declared.key.Key.{Key as TheKey};
ghost use Rattle.cat_model.specs.declared.key.Key.TheVariants as key;
ghost use Rattle.cat_model.specs.declared.value.Value.{Value as TheValue};
ghost use Rattle.column_numbers.specs.Numbers.{number_of};
ghost use Rattle.column_numbers.specs.Rule.{last, natural, next_number, with_columns, with_entry, with_entries};

use crate::numbers::Numbers;
use cat_model::{Column, Key, QName, Value};
use copy_text::Name;
use std::alloc::{AllocError, Global};

/// The greatest number.
const LAST: usize = 9223372036854775807;

// The number, or 0 for one below it.
fn natural(number: i64) -> usize
    ensures { result ≡ natural number }
{
    if number < 0 { 0 } else { number as usize }
}

// The number of a column that had one, behind another and before so many further columns.
fn next_number(before: usize, left: usize, had: usize) -> usize
    requires { before + left < last }
    ensures is { result ≡ next_number before left had }
    ensures room { result + left ≤ last }
{
    if before < had && had <= LAST - left {
        had
    } else {
        before + 1
    }
}

// The number as one with a sign.
fn signed(number: usize) -> i64
    requires { number ≤ last }
    ensures { result ≡ pos number }
{
    number as i64
}

// The number of a column, by the one that it had.
fn number_after(
    had: &Numbers,
    table: &QName,
    column: &Name,
    before: usize,
    left: usize,
) -> Result<usize, AllocError>
    requires { before + left < last }
    ensures is { IfOk result (λ n. n ≡ next_number before left (natural (number_of had.now table.now column.now))) }
    ensures room { IfOk result (λ n. n + left ≤ last) }
{
    Ok(next_number(before, left, natural(had.of(table, column)?)))
}

// Gives a column its number.
fn number_column(
    numbers: &mut Numbers,
    had: &Numbers,
    table: &QName,
    column: &Name,
    before: usize,
    left: usize,
) -> Result<usize, AllocError>
    requires { before + left < last }
    ensures is { IfOk result (λ n. n ≡ next_number before left (natural (number_of had.now table.now column.now))) }
    ensures put { IfOk result (λ n. numbers.new ≡ insert numbers.old (key.Default table.now column.now) (pos n)) }
    ensures room { IfOk result (λ n. n + left ≤ last) }
{
    let number = number_after(had, table, column, before, left)?;
    numbers.put(table, column, signed(number))?;
    Ok(number)
}

// Gives the columns of a table their numbers.
fn number_table(
    numbers: &mut Numbers,
    had: &Numbers,
    table: &QName,
    columns: &[Column],
) -> Result<(), AllocError>
    ensures { OnOk result (numbers.new ≡ with_columns had.now table.now 0 columns.now numbers.old) }
{
    let mut before = 0;
    for i in 0..columns.len() {
        let left = columns.len() - i - 1;
        before = number_column(numbers, had, table, &columns[i].name, before, left)?;
    }
    Ok(())
}

// Gives the columns of an entry their numbers, where it is of a table.
fn number_entry(
    numbers: &mut Numbers,
    had: &Numbers,
    key: &Key,
    value: &Value,
) -> Result<(), AllocError>
    ensures { OnOk result (numbers.new ≡ with_entry had.now (key.now, value.now) numbers.old) }
{
    match (key, value) {
        (Key::Rel(table), Value::Table(columns)) => {
            number_table(numbers, had, table, columns.as_slice())
        }
        _ => Ok(()),
    }
}

/// The numbers of the columns of the tables among these entries: each column keeps the number that it had, where that is
/// greater than the one before it and leaves room for the columns behind it, and else gets the next one. The only error is
/// want of memory. See <https://www.postgresql.org/docs/16/catalog-pg-attribute.html>.
pub fn number_columns(
    alloc: Global,
    had: &Numbers,
    entries: &[(&Key, &Value)],
) -> Result<Numbers, AllocError>
    ensures { IfOk result (λ numbers. numbers ≡ with_entries had.now (map (deref_pair {K = TheKey} {X = TheValue}) entries.now) empty) }
{
    let mut numbers = Numbers::new(alloc);
    for i in 0..entries.len() {
        let (key, value) = entries[i];
        number_entry(&mut numbers, had, key, value)?;
    }
    Ok(numbers)
}

//! Conditions on the rows of a table.
ghost use Rattle.std.specs.Prelude.{◌≡◌, IfOk};
ghost use Rattle.std.specs.FinMap.{get};
ghost use Rattle.std.specs.Option.{option_copied};
ghost use Rattle.cat_model.specs.declared.cause.Cause.TheVariants as cause;
ghost use Rattle.cat_model.specs.declared.key.Key.TheVariants as key;
ghost use Rattle.cat_model.specs.KeyEffects.{rows_in, no_null_rows};
ghost use Rattle.cat_model.specs.Tables.{repeated, null_in};
ghost use Rattle.cat_model.specs.Trees.{Tree, outcome, seen};
ghost use Rattle.eng_steps.specs.Outcomes.{Steps};

use cat_model::{Cause, Column, Items, Key, QName, Value};
use copy_text::{Name, Row};
use eng_map::NamedMap;
use eng_steps::{ApplyError, let_go_key};
use field_values::TableColumns;
use row_keys::{JoinedRows, null_in, repeated};
use std::alloc::{AllocError, Global};

fn rows_in(alloc: Global, found: Option<&Value>) -> Result<Vec<Row>, AllocError>
    ensures { IfOk result (λ rows. rows.items ≡ rows_in (option_copied found.entry)) }
{
    match found {
        Some(Value::Rows(rows)) => rows.to_rows(alloc),
        _ => Ok(Vec::new(alloc)),
    }
}

/// The rows of a table, read of their text; none where it has none. The only error is want of memory.
pub fn rows_of(alloc: Global, named: &NamedMap, q: &QName) -> Result<Vec<Row>, AllocError>
    ensures { IfOk result (λ rows. rows.items ≡ rows_in (get named.now (key.Rows q.now))) }
{
    let key = Key::Rows(q.clone()?);
    let rows = rows_in(alloc, named.get(&key));
    let_go_key(key);
    rows
}

fn null_among(
    alloc: Global,
    columns: &TableColumns<'_>,
    names: &Items<Name>,
    rows: &[Row],
) -> Result<Option<(u64, u64)>, AllocError>
    ensures { IfOk result (λ pair. pair ≡ null_in 1 columns.now names.now rows.now) }
{
    null_in(alloc, columns, names.as_slice(), rows)
}

// The least row of a table with a null in one of the columns, behind the least such column.
fn first_null(
    alloc: Global,
    named: &NamedMap,
    q: &QName,
    columns: &[Column],
    names: &Items<Name>,
) -> Result<Option<(u64, u64)>, AllocError>
    ensures { IfOk result (λ pair. pair ≡ null_in 1 columns.now names.now (rows_in (get named.now (key.Rows q.now)))) }
{
    let table = TableColumns::new(alloc, columns)?;
    let rows = rows_of(alloc, named, q)?;
    null_among(alloc, &table, names, &rows)
}

/// No row of the table has a null in these of its columns, else `NullValue`.
pub(crate) fn no_null_rows(
    alloc: Global,
    named: &NamedMap,
    q: &QName,
    columns: &[Column],
    names: &Items<Name>,
) -> Result<(), ApplyError>
    ensures { (next : Tree) → Steps result (outcome (no_null_rows columns.now names.now (rows_in (get named.now (key.Rows q.now))) next) (seen named.now)) (λ _. outcome next (seen named.now)) }
{
    match first_null(alloc, named, q, columns, names)? {
        Some((column, row)) => Err(ApplyError::Refused(Cause::NullValue { column, row })),
        None => Ok(()),
    }
}

fn repeated_among(
    alloc: Global,
    columns: &TableColumns<'_>,
    names: &Items<Name>,
    rows: &[Row],
) -> Result<Option<(u64, u64)>, AllocError>
    ensures { IfOk result (λ pair. pair ≡ repeated columns.now names.now rows.now) }
{
    repeated(
        alloc,
        columns,
        names.as_slice(),
        &JoinedRows::new(rows, &[]),
    )
}

/// The least row of a table that has the key of an earlier one on these of its columns, behind the least row with that
/// key. The only error is want of memory.
pub(crate) fn first_repeated(
    alloc: Global,
    named: &NamedMap,
    q: &QName,
    columns: &[Column],
    names: &Items<Name>,
) -> Result<Option<(u64, u64)>, AllocError>
    ensures { IfOk result (λ pair. pair ≡ repeated columns.now names.now (rows_in (get named.now (key.Rows q.now)))) }
{
    let table = TableColumns::new(alloc, columns)?;
    let rows = rows_of(alloc, named, q)?;
    repeated_among(alloc, &table, names, &rows)
}

/// Two rows have one key for the key of this name.
pub(crate) fn duplicate(name: &Name, pair: (u64, u64)) -> Result<Cause, AllocError>
    ensures { IfOk result (λ because. because ≡ cause.Duplicate name.now pair.0 pair.1) }
{
    let (first, second) = pair;
    Ok(Cause::Duplicate {
        name: name.clone()?,
        first,
        second,
    })
}

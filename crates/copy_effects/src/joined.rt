//! The rows of a table after a COPY.
ghost use Rattle.std.specs.Prelude.{◌≡◌, ◌<◌, [], ◌∷◌, ◌++◌, length, All, Some, IfOk, OnOk};
ghost use Rattle.std.specs.FinMap.{get};
ghost use Rattle.std.specs.Option.{option_copied};
ghost use Rattle.cat_model.specs.declared.key.Key.TheVariants as key;
ghost use Rattle.cat_model.specs.declared.value.Value.TheVariants as value;
ghost use Rattle.cat_model.specs.KeyEffects.{rows_in};

use cat_model::{Items, Key, QName, TableRows, Value};
use copy_text::Row;
use eng_map::{Change, NamedMap};
use eng_steps::{let_go_key, one};
use std::alloc::{AllocError, Global};

fn copied(alloc: Global, found: Option<&Value>) -> Result<TableRows, AllocError>
    ensures { IfOk result (λ rows. rows ≡ rows_in (option_copied found.entry)) }
{
    match found {
        Some(Value::Rows(rows)) => Ok(rows.clone()?),
        _ => Ok(TableRows::new(alloc)),
    }
}

// A copy of a table's rows, which is one of their text.
fn old_rows(alloc: Global, named: &NamedMap, q: &QName) -> Result<TableRows, AllocError>
    ensures { IfOk result (λ rows. rows ≡ rows_in (get named.now (key.Rows q.now))) }
{
    let key = Key::Rows(q.clone()?);
    let rows = copied(alloc, named.get(&key));
    let_go_key(key);
    rows
}

fn push_rows(all: &mut TableRows, rows: &[Row]) -> Result<(), AllocError>
    requires { All (λ row. 0 < length row) rows.now }
    ensures { OnOk result (all.new ≡ all.old ++ rows.now) }
{
    for row in rows {
        all.push(row.fields())?;
    }
    Ok(())
}

// The new rows behind the table's own.
fn all_rows(
    alloc: Global,
    named: &NamedMap,
    q: &QName,
    new: &[Row],
) -> Result<TableRows, AllocError>
    requires { All (λ row. 0 < length row) new.now }
    ensures { IfOk result (λ all. all ≡ rows_in (get named.now (key.Rows q.now)) ++ new.now) }
{
    let mut all = old_rows(alloc, named, q)?;
    push_rows(&mut all, new)?;
    Ok(all)
}

/// The table gets the new rows behind its old ones.
pub(crate) fn rows_changes(
    alloc: Global,
    named: &NamedMap,
    q: &QName,
    new: Items<Row>,
) -> Result<Vec<Change>, AllocError>
    requires { All (λ row. 0 < length row) new }
    ensures { IfOk result (λ changes. changes.items ≡ (key.Rows q.now, Some (value.Rows (rows_in (get named.now (key.Rows q.now)) ++ new))) ∷ []) }
{
    let all = all_rows(alloc, named, q, new.as_slice())?;
    one(alloc, Key::Rows(q.clone()?), Value::Rows(all))
}

//! Indexes that aren't constraints'.
ghost use Rattle.std.specs.Prelude.{◌≡◌, [], ◌∷◌, Ok, Some, true, false, IfOk};
ghost use Rattle.std.specs.FinMap.{get};
ghost use Rattle.cat_model.specs.declared.key.Key.TheVariants as key;
ghost use Rattle.cat_model.specs.declared.value.Value.TheVariants as value;
ghost use Rattle.cat_model.specs.IndexColumns.{plain_columns};
ghost use Rattle.cat_model.specs.KeyEffects.{rows_in, create_index, create_unique_index};
ghost use Rattle.cat_model.specs.Trees.{outcome, seen};
ghost use Rattle.key_effects.specs.Keys.{index_changes, index_named, apart, apart_on, unique_index_on, unique_index_named};
ghost use Rattle.eng_steps.specs.Outcomes.{Steps};

use crate::condition::columns_there;
use crate::paths::{free_index, free_index_relation, set_index_of, under_table};
use crate::rows::{duplicate, first_repeated};
use cat_model::{Cause, Column, Index, Items, Key, QName, Value};
use copy_text::{Name, Text};
use eng_map::{Change, NamedMap};
use eng_steps::{ApplyError, needs_table, one};
use std::alloc::{AllocError, Global};
use stmt_refs::plain_columns;

/// An index that a statement makes on a table.
#[derive(Clone, Copy)]
pub struct NewIndex<'a> {
    /// Its name.
    pub name: &'a Name,
    /// How it is kept, as btree.
    pub method: &'a Name,
    /// What follows, from the bracket on.
    pub rest: &'a Text,
}

fn index_value(new: NewIndex<'_>, unique: bool) -> Result<Value, AllocError>
    ensures { IfOk result (λ v. v ≡ value.Index (record { method = new.entry.method.now; unique = unique; text = new.entry.rest.now })) }
{
    let method = new.method.clone()?;
    Ok(Value::Index(Index {
        method,
        unique,
        text: new.rest.clone()?,
    }))
}

fn one_index(
    alloc: Global,
    q: &QName,
    new: NewIndex<'_>,
    unique: bool,
) -> Result<Vec<Change>, AllocError>
    ensures { IfOk result (λ changes. changes.items ≡ (key.Index q.now new.entry.name.now, Some (value.Index (record { method = new.entry.method.now; unique = unique; text = new.entry.rest.now }))) ∷ []) }
{
    let (table, name) = under_table(q, new.name)?;
    let value = index_value(new, unique)?;
    one(alloc, Key::Index(table, name), value)
}

// The index, as a relation too.
fn index_changes(
    alloc: Global,
    q: &QName,
    new: NewIndex<'_>,
    unique: bool,
) -> Result<Vec<Change>, AllocError>
    ensures { IfOk result (λ changes. changes.items ≡ index_changes q.now new.entry.name.now (record { method = new.entry.method.now; unique = unique; text = new.entry.rest.now })) }
{
    let mut changes = one_index(alloc, q, new, unique)?;
    set_index_of(&mut changes, q, new.name)?;
    Ok(changes)
}

fn index_named(
    alloc: Global,
    named: &NamedMap,
    q: &QName,
    new: NewIndex<'_>,
) -> Result<Vec<Change>, ApplyError>
    ensures { Steps result (outcome (index_named q.now new.entry.name.now (record { method = new.entry.method.now; unique = false; text = new.entry.rest.now })) (seen named.now)) (λ changes. Ok changes.items) }
{
    free_index_relation(named, q, new.name)?;
    free_index(named, q, new.name)?;
    Ok(index_changes(alloc, q, new, false)?)
}

/// CREATE INDEX.
pub fn create_index(
    alloc: Global,
    named: &NamedMap,
    q: &QName,
    new: NewIndex<'_>,
) -> Result<Vec<Change>, ApplyError>
    ensures { Steps result (outcome (create_index q.now new.entry.name.now new.entry.method.now new.entry.rest.now) (seen named.now)) (λ changes. Ok changes.items) }
{
    needs_table(named, q)?;
    index_named(alloc, named, q, new)
}

// No two rows have one key on these columns, else `Duplicate`; then the index is made.
fn apart(
    alloc: Global,
    named: &NamedMap,
    q: &QName,
    columns: &[Column],
    new: NewIndex<'_>,
    names: &Items<Name>,
) -> Result<Vec<Change>, ApplyError>
    ensures { Steps result (outcome (apart q.now new.entry.name.now (record { method = new.entry.method.now; unique = true; text = new.entry.rest.now }) columns.now names.now (rows_in (get named.now (key.Rows q.now)))) (seen named.now)) (λ changes. Ok changes.items) }
{
    match first_repeated(alloc, named, q, columns, names)? {
        Some(pair) => Err(ApplyError::Refused(duplicate(new.name, pair)?)),
        None => Ok(index_changes(alloc, q, new, true)?),
    }
}

fn apart_on(
    alloc: Global,
    named: &NamedMap,
    q: &QName,
    columns: &[Column],
    new: NewIndex<'_>,
    names: &Items<Name>,
) -> Result<Vec<Change>, ApplyError>
    ensures { Steps result (outcome (apart_on q.now new.entry.name.now (record { method = new.entry.method.now; unique = true; text = new.entry.rest.now }) columns.now names.now) (seen named.now)) (λ changes. Ok changes.items) }
{
    if !columns_there(alloc, columns, names)? {
        return Err(ApplyError::Refused(Cause::WrongColumns));
    }
    apart(alloc, named, q, columns, new, names)
}

// On plain columns no two rows have one key; on others the rows aren't tried.
fn unique_index_on(
    alloc: Global,
    named: &NamedMap,
    q: &QName,
    columns: &[Column],
    new: NewIndex<'_>,
    on: &Option<Items<Name>>,
) -> Result<Vec<Change>, ApplyError>
    ensures { Steps result (outcome (unique_index_on q.now new.entry.name.now (record { method = new.entry.method.now; unique = true; text = new.entry.rest.now }) columns.now on.now) (seen named.now)) (λ changes. Ok changes.items) }
{
    match on {
        Some(names) => apart_on(alloc, named, q, columns, new, names),
        None => Ok(index_changes(alloc, q, new, true)?),
    }
}

fn unique_index_tried(
    alloc: Global,
    named: &NamedMap,
    q: &QName,
    columns: &[Column],
    new: NewIndex<'_>,
) -> Result<Vec<Change>, ApplyError>
    ensures { Steps result (outcome (unique_index_on q.now new.entry.name.now (record { method = new.entry.method.now; unique = true; text = new.entry.rest.now }) columns.now (plain_columns new.entry.rest.now)) (seen named.now)) (λ changes. Ok changes.items) }
{
    let on = plain_columns(alloc, new.rest.as_bytes())?;
    unique_index_on(alloc, named, q, columns, new, &on)
}

fn unique_index_named(
    alloc: Global,
    named: &NamedMap,
    q: &QName,
    columns: &[Column],
    new: NewIndex<'_>,
) -> Result<Vec<Change>, ApplyError>
    ensures { Steps result (outcome (unique_index_named q.now new.entry.name.now new.entry.method.now new.entry.rest.now columns.now) (seen named.now)) (λ changes. Ok changes.items) }
{
    free_index_relation(named, q, new.name)?;
    free_index(named, q, new.name)?;
    unique_index_tried(alloc, named, q, columns, new)
}

/// CREATE UNIQUE INDEX. On plain columns no two rows of the table may have one key; on others the rows aren't tried.
pub fn create_unique_index(
    alloc: Global,
    named: &NamedMap,
    q: &QName,
    new: NewIndex<'_>,
) -> Result<Vec<Change>, ApplyError>
    ensures { Steps result (outcome (create_unique_index q.now new.entry.name.now new.entry.method.now new.entry.rest.now) (seen named.now)) (λ changes. Ok changes.items) }
{
    let columns = needs_table(named, q)?;
    unique_index_named(alloc, named, q, columns, new)
}

//! Primary keys and unique constraints.
ghost use Rattle.std.specs.Prelude.{◌≡◌, [], ◌∷◌, Ok, Some, IfOk};
ghost use Rattle.std.specs.FinMap.{get};
ghost use Rattle.cat_model.specs.declared.key.Key.TheVariants as key;
ghost use Rattle.cat_model.specs.KeyEffects.{rows_in, key_value, add_primary, add_unique};
ghost use Rattle.cat_model.specs.Trees.{outcome, seen};
ghost use Rattle.key_effects.specs.Keys.{key_changes, keyed, primary_on, primary_named, unique_on, unique_named};
ghost use Rattle.eng_steps.specs.Outcomes.{Steps};

use crate::condition::{columns_there, no_primary};
use crate::paths::{free_constraint, free_index_relation, names_of, set_index_of, under_table};
use crate::rows::{duplicate, first_repeated, no_null_rows};
use cat_model::{Cause, Column, Constraint, ConstraintKind, Items, Key, QName, Value};
use copy_text::{Name, Text};
use eng_map::{Change, NamedMap};
use eng_steps::{ApplyError, needs_table, one};
use std::alloc::{AllocError, Global};

/// A primary key or a unique constraint that a statement adds to a table.
#[derive(Clone, Copy)]
pub struct NewKey<'a> {
    /// Its name.
    pub name: &'a Name,
    /// Its columns.
    pub columns: &'a Items<Name>,
    /// What follows them.
    pub rest: &'a Text,
}

fn key_value(kind: ConstraintKind, columns: &Items<Name>, rest: &Text) -> Result<Value, AllocError>
    ensures { IfOk result (λ v. v ≡ key_value kind columns.now rest.now) }
{
    let columns = names_of(columns)?;
    Ok(Value::Constraint(Constraint {
        kind,
        columns,
        parent: None,
        text: rest.clone()?,
    }))
}

fn constraint_changes(
    alloc: Global,
    q: &QName,
    new: NewKey<'_>,
    kind: ConstraintKind,
) -> Result<Vec<Change>, AllocError>
    ensures { IfOk result (λ changes. changes.items ≡ (key.Con q.now new.entry.name.now, Some (key_value kind new.entry.columns.now new.entry.rest.now)) ∷ []) }
{
    let (table, name) = under_table(q, new.name)?;
    let value = key_value(kind, new.columns, new.rest)?;
    one(alloc, Key::Con(table, name), value)
}

// The constraint, with its index.
fn key_changes(
    alloc: Global,
    q: &QName,
    new: NewKey<'_>,
    kind: ConstraintKind,
) -> Result<Vec<Change>, AllocError>
    ensures { IfOk result (λ changes. changes.items ≡ key_changes kind q.now new.entry.name.now new.entry.columns.now new.entry.rest.now) }
{
    let mut changes = constraint_changes(alloc, q, new, kind)?;
    set_index_of(&mut changes, q, new.name)?;
    Ok(changes)
}

// No two rows have one key, else `Duplicate`; then the constraint is made.
fn keyed(
    alloc: Global,
    named: &NamedMap,
    q: &QName,
    columns: &[Column],
    new: NewKey<'_>,
    kind: ConstraintKind,
) -> Result<Vec<Change>, ApplyError>
    ensures { Steps result (outcome (keyed kind q.now new.entry.name.now new.entry.columns.now new.entry.rest.now columns.now (rows_in (get named.now (key.Rows q.now)))) (seen named.now)) (λ changes. Ok changes.items) }
{
    match first_repeated(alloc, named, q, columns, new.columns)? {
        Some(pair) => Err(ApplyError::Refused(duplicate(new.name, pair)?)),
        None => Ok(key_changes(alloc, q, new, kind)?),
    }
}

fn primary_on(
    alloc: Global,
    named: &NamedMap,
    q: &QName,
    columns: &[Column],
    new: NewKey<'_>,
) -> Result<Vec<Change>, ApplyError>
    ensures { Steps result (outcome (primary_on q.now new.entry.name.now new.entry.columns.now new.entry.rest.now columns.now) (seen named.now)) (λ changes. Ok changes.items) }
{
    if !columns_there(alloc, columns, new.columns)? {
        return Err(ApplyError::Refused(Cause::WrongColumns));
    }
    no_null_rows(alloc, named, q, columns, new.columns)?;
    keyed(alloc, named, q, columns, new, ConstraintKind::Primary)
}

fn primary_named(
    alloc: Global,
    named: &NamedMap,
    q: &QName,
    columns: &[Column],
    new: NewKey<'_>,
) -> Result<Vec<Change>, ApplyError>
    ensures { Steps result (outcome (primary_named q.now new.entry.name.now new.entry.columns.now new.entry.rest.now columns.now) (seen named.now)) (λ changes. Ok changes.items) }
{
    free_constraint(named, q, new.name)?;
    free_index_relation(named, q, new.name)?;
    no_primary(named, q)?;
    primary_on(alloc, named, q, columns, new)
}

/// ALTER TABLE .. ADD CONSTRAINT .. PRIMARY KEY. No row of the table may have a null in the key's columns, and no two
/// rows one key.
pub fn add_primary(
    alloc: Global,
    named: &NamedMap,
    q: &QName,
    new: NewKey<'_>,
) -> Result<Vec<Change>, ApplyError>
    ensures { Steps result (outcome (add_primary q.now new.entry.name.now new.entry.columns.now new.entry.rest.now) (seen named.now)) (λ changes. Ok changes.items) }
{
    let columns = needs_table(named, q)?;
    primary_named(alloc, named, q, columns, new)
}

fn unique_on(
    alloc: Global,
    named: &NamedMap,
    q: &QName,
    columns: &[Column],
    new: NewKey<'_>,
) -> Result<Vec<Change>, ApplyError>
    ensures { Steps result (outcome (unique_on q.now new.entry.name.now new.entry.columns.now new.entry.rest.now columns.now) (seen named.now)) (λ changes. Ok changes.items) }
{
    if !columns_there(alloc, columns, new.columns)? {
        return Err(ApplyError::Refused(Cause::WrongColumns));
    }
    keyed(alloc, named, q, columns, new, ConstraintKind::Unique)
}

fn unique_named(
    alloc: Global,
    named: &NamedMap,
    q: &QName,
    columns: &[Column],
    new: NewKey<'_>,
) -> Result<Vec<Change>, ApplyError>
    ensures { Steps result (outcome (unique_named q.now new.entry.name.now new.entry.columns.now new.entry.rest.now columns.now) (seen named.now)) (λ changes. Ok changes.items) }
{
    free_constraint(named, q, new.name)?;
    free_index_relation(named, q, new.name)?;
    unique_on(alloc, named, q, columns, new)
}

/// ALTER TABLE .. ADD CONSTRAINT .. UNIQUE. No two rows of the table may have one key.
pub fn add_unique(
    alloc: Global,
    named: &NamedMap,
    q: &QName,
    new: NewKey<'_>,
) -> Result<Vec<Change>, ApplyError>
    ensures { Steps result (outcome (add_unique q.now new.entry.name.now new.entry.columns.now new.entry.rest.now) (seen named.now)) (λ changes. Ok changes.items) }
{
    let columns = needs_table(named, q)?;
    unique_named(alloc, named, q, columns, new)
}

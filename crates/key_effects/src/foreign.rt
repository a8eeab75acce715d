//! Foreign keys.
ghost use Rattle.std.specs.Prelude.{◌≡◌, [], ◌∷◌, Ok, Some, IfOk};
ghost use Rattle.std.specs.FinMap.{get};
ghost use Rattle.cat_model.specs.declared.key.Key.TheVariants as key;
ghost use Rattle.cat_model.specs.KeyEffects.{rows_in, foreign_value, fits_foreign, add_foreign};
ghost use Rattle.cat_model.specs.Tables.{orphan};
ghost use Rattle.cat_model.specs.Trees.{outcome, seen};
ghost use Rattle.key_effects.specs.Keys.{foreign_rows, foreign_keyed, foreign_between};
ghost use Rattle.eng_steps.specs.Outcomes.{Steps};

use crate::condition::{columns_there, has_key};
use crate::paths::{free_constraint, names_of, under_table};
use crate::rows::rows_of;
use cat_model::{Cause, Column, Constraint, ConstraintKind, Items, Key, QName, Value};
use copy_text::{Name, Row, Text};
use eng_map::{Change, NamedMap};
use eng_steps::{ApplyError, needs_table, one};
use field_values::TableColumns;
use row_keys::{JoinedRows, orphan};
use std::alloc::{AllocError, Global};

/// A foreign key that a statement adds to a table.
#[derive(Clone, Copy)]
pub struct NewForeign<'a> {
    /// Its name.
    pub name: &'a Name,
    /// Its columns.
    pub columns: &'a Items<Name>,
    /// The table of the parents.
    pub parent: &'a QName,
    /// The parents' columns.
    pub parent_columns: &'a Items<Name>,
    /// What follows them.
    pub rest: &'a Text,
}

// What the key refers to.
fn parent_of(new: NewForeign<'_>) -> Result<(QName, Items<Name>), AllocError>
    ensures { IfOk result (λ parent. parent ≡ (new.entry.parent.now, new.entry.parent_columns.now)) }
{
    let columns = names_of(new.parent_columns)?;
    Ok((new.parent.clone()?, columns))
}

fn foreign_value(new: NewForeign<'_>) -> Result<Value, AllocError>
    ensures { IfOk result (λ v. v ≡ foreign_value new.entry.columns.now new.entry.parent.now new.entry.parent_columns.now new.entry.rest.now) }
{
    let columns = names_of(new.columns)?;
    let text = new.rest.clone()?;
    Ok(Value::Constraint(Constraint {
        kind: ConstraintKind::Foreign,
        columns,
        parent: Some(parent_of(new)?),
        text,
    }))
}

fn foreign_changes(alloc: Global, q: &QName, new: NewForeign<'_>) -> Result<Vec<Change>, AllocError>
    ensures { IfOk result (λ changes. changes.items ≡ (key.Con q.now new.entry.name.now, Some (foreign_value new.entry.columns.now new.entry.parent.now new.entry.parent_columns.now new.entry.rest.now)) ∷ []) }
{
    let (table, name) = under_table(q, new.name)?;
    let value = foreign_value(new)?;
    one(alloc, Key::Con(table, name), value)
}

// As many columns on both sides, each there, none twice.
fn are_fit(
    alloc: Global,
    columns: &[Column],
    parent_columns: &[Column],
    new: NewForeign<'_>,
) -> Result<bool, AllocError>
    ensures { IfOk result (λ fit. fit ≡ fits_foreign columns.now new.entry.columns.now parent_columns.now new.entry.parent_columns.now) }
{
    let names = new.columns;
    let parent_names = new.parent_columns;
    let there = columns_there(alloc, columns, names)?;
    let parents_there = columns_there(alloc, parent_columns, parent_names)?;
    Ok(there && (parents_there && names.as_slice().len() == parent_names.as_slice().len()))
}

// The least of the rows that has no parent.
fn orphan_among(
    alloc: Global,
    columns: &TableColumns<'_>,
    names: &Items<Name>,
    rows: &[Row],
    parent_columns: &TableColumns<'_>,
    parent_names: &Items<Name>,
    parent_rows: &[Row],
) -> Result<Option<u64>, AllocError>
    ensures { IfOk result (λ row. row ≡ orphan columns.now names.now rows.now parent_columns.now parent_names.now parent_rows.now) }
{
    orphan(
        alloc,
        columns,
        names.as_slice(),
        rows,
        parent_columns,
        parent_names.as_slice(),
        &JoinedRows::new(parent_rows, &[]),
    )
}

fn first_orphan(
    alloc: Global,
    named: &NamedMap,
    q: &QName,
    columns: &[Column],
    parent_columns: &[Column],
    new: NewForeign<'_>,
) -> Result<Option<u64>, AllocError>
    ensures { IfOk result (λ row. row ≡ orphan columns.now new.entry.columns.now (rows_in (get named.now (key.Rows q.now))) parent_columns.now new.entry.parent_columns.now (rows_in (get named.now (key.Rows new.entry.parent.now)))) }
{
    let table = TableColumns::new(alloc, columns)?;
    let parent_table = TableColumns::new(alloc, parent_columns)?;
    let rows = rows_of(alloc, named, q)?;
    let parent_rows = rows_of(alloc, named, new.parent)?;
    orphan_among(
        alloc,
        &table,
        new.columns,
        &rows,
        &parent_table,
        new.parent_columns,
        &parent_rows,
    )
}

// Each row of the table has a parent, else `NoParent`; then the key is made.
fn foreign_rows(
    alloc: Global,
    named: &NamedMap,
    q: &QName,
    columns: &[Column],
    parent_columns: &[Column],
    new: NewForeign<'_>,
) -> Result<Vec<Change>, ApplyError>
    ensures { Steps result (outcome (foreign_rows q.now new.entry.name.now new.entry.columns.now new.entry.parent.now new.entry.parent_columns.now new.entry.rest.now columns.now parent_columns.now (rows_in (get named.now (key.Rows q.now))) (rows_in (get named.now (key.Rows new.entry.parent.now)))) (seen named.now)) (λ changes. Ok changes.items) }
{
    match first_orphan(alloc, named, q, columns, parent_columns, new)? {
        Some(row) => Err(ApplyError::Refused(Cause::NoParent {
            name: new.name.clone()?,
            row,
        })),
        None => Ok(foreign_changes(alloc, q, new)?),
    }
}

fn foreign_keyed(
    alloc: Global,
    named: &NamedMap,
    q: &QName,
    columns: &[Column],
    parent_columns: &[Column],
    new: NewForeign<'_>,
) -> Result<Vec<Change>, ApplyError>
    ensures { Steps result (outcome (foreign_keyed q.now new.entry.name.now new.entry.columns.now new.entry.parent.now new.entry.parent_columns.now new.entry.rest.now columns.now parent_columns.now) (seen named.now)) (λ changes. Ok changes.items) }
{
    has_key(named, new.parent, new.parent_columns)?;
    foreign_rows(alloc, named, q, columns, parent_columns, new)
}

fn foreign_between(
    alloc: Global,
    named: &NamedMap,
    q: &QName,
    columns: &[Column],
    parent_columns: &[Column],
    new: NewForeign<'_>,
) -> Result<Vec<Change>, ApplyError>
    ensures { Steps result (outcome (foreign_between q.now new.entry.name.now new.entry.columns.now new.entry.parent.now new.entry.parent_columns.now new.entry.rest.now columns.now parent_columns.now) (seen named.now)) (λ changes. Ok changes.items) }
{
    free_constraint(named, q, new.name)?;
    if !are_fit(alloc, columns, parent_columns, new)? {
        return Err(ApplyError::Refused(Cause::WrongColumns));
    }
    foreign_keyed(alloc, named, q, columns, parent_columns, new)
}

/// ALTER TABLE .. ADD CONSTRAINT .. FOREIGN KEY. The parent must have a key on its columns, and each row without a null
/// in the key's columns a parent.
pub fn add_foreign(
    alloc: Global,
    named: &NamedMap,
    q: &QName,
    new: NewForeign<'_>,
) -> Result<Vec<Change>, ApplyError>
    ensures { Steps result (outcome (add_foreign q.now new.entry.name.now new.entry.columns.now new.entry.parent.now new.entry.parent_columns.now new.entry.rest.now) (seen named.now)) (λ changes. Ok changes.items) }
{
    let columns = needs_table(named, q)?;
    let parent_columns = needs_table(named, new.parent)?;
    foreign_between(alloc, named, q, columns, parent_columns, new)
}

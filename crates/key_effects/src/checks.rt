//! Checks.
ghost use Rattle.std.specs.Prelude.{◌≡◌, [], ◌∷◌, Ok, Some, IfOk};
ghost use Rattle.cat_model.specs.declared.key.Key.TheVariants as key;
ghost use Rattle.cat_model.specs.Conditions.{needs_each};
ghost use Rattle.cat_model.specs.KeyEffects.{add_check};
ghost use Rattle.cat_model.specs.References.{expression_references};
ghost use Rattle.cat_model.specs.RelationEffects.{check_value};
ghost use Rattle.cat_model.specs.Trees.{Tree, outcome, seen};
ghost use Rattle.key_effects.specs.Keys.{check_named};
ghost use Rattle.eng_steps.specs.Outcomes.{Steps};

use crate::paths::{free_constraint, under_table};
use cat_model::{Constraint, ConstraintKind, Items, Key, QName, Value};
use copy_text::{Name, Text};
use eng_map::{Change, NamedMap};
use eng_steps::{ApplyError, needs_each, needs_table, one};
use std::alloc::{AllocError, Global};
use stmt_refs::expr_refs;

fn check_value(alloc: Global, text: &Text) -> Result<Value, AllocError>
    ensures { IfOk result (λ v. v ≡ check_value text.now) }
{
    let text = text.clone()?;
    Ok(Value::Constraint(Constraint {
        kind: ConstraintKind::Check,
        columns: Items::new(Vec::new(alloc)),
        parent: None,
        text,
    }))
}

fn check_changes(
    alloc: Global,
    q: &QName,
    name: &Name,
    text: &Text,
) -> Result<Vec<Change>, AllocError>
    ensures { IfOk result (λ changes. changes.items ≡ (key.Con q.now name.now, Some (check_value text.now)) ∷ []) }
{
    let (table, name) = under_table(q, name)?;
    let value = check_value(alloc, text)?;
    one(alloc, Key::Con(table, name), value)
}

// What the expression refers to is there, else `Absent` of the first that isn't.
fn needs_references(alloc: Global, named: &NamedMap, text: &Text) -> Result<(), ApplyError>
    ensures { (next : Tree) → Steps result (outcome (needs_each (expression_references text.now) next) (seen named.now)) (λ _. outcome next (seen named.now)) }
{
    let keys = expr_refs(alloc, text.as_bytes())?;
    needs_each(named, keys)
}

fn check_named(
    alloc: Global,
    named: &NamedMap,
    q: &QName,
    name: &Name,
    text: &Text,
) -> Result<Vec<Change>, ApplyError>
    ensures { Steps result (outcome (check_named q.now name.now text.now) (seen named.now)) (λ changes. Ok changes.items) }
{
    free_constraint(named, q, name)?;
    needs_references(alloc, named, text)?;
    Ok(check_changes(alloc, q, name, text)?)
}

/// ALTER TABLE .. ADD CONSTRAINT .. CHECK. What its expression refers to must be there; the rows aren't tried.
pub fn add_check(
    alloc: Global,
    named: &NamedMap,
    q: &QName,
    name: &Name,
    text: &Text,
) -> Result<Vec<Change>, ApplyError>
    ensures { Steps result (outcome (add_check q.now name.now text.now) (seen named.now)) (λ changes. Ok changes.items) }
{
    needs_table(named, q)?;
    check_named(alloc, named, q, name, text)
}

//! What the texts of a statement refer to.
ghost use Rattle.std.specs.Prelude.{◌≡◌, [], ◌∷◌, ◌++◌, IfOk, OnOk};
ghost use Rattle.std.specs.List.{flat_map};
ghost use Rattle.cat_model.specs.References.{expression_references};
ghost use Rattle.cat_model.specs.declared.key.Key.TheVariants as key;
ghost use Rattle.cat_model.specs.Conditions.{needs_each};
ghost use Rattle.cat_model.specs.Trees.{Tree, outcome, seen};
ghost use Rattle.eng_steps.specs.Outcomes.{Steps};
ghost use Rattle.cat_model.specs.TypeEffects.{but, default_references, check_references};

use crate::condition::needs_each;
use crate::refusal::ApplyError;
use cat_model::{CheckDef, Key, QName};
use copy_text::Text;
use eng_map::{NamedMap, let_go_key};
use std::alloc::{AllocError, Global};
use stmt_refs::expr_refs;

// Adds a key, unless it is the one that is left out.
fn push_but(keys: &mut Vec<Key>, out: &Key, key: Key) -> Result<(), AllocError>
    ensures { OnOk result (keys.new.items ≡ keys.old.items ++ but out.now (key ∷ [])) }
{
    if *out == key {
        let_go_key(key);
    } else {
        keys.push(key)?;
    }
    Ok(())
}

// All of the keys but one.
fn but(alloc: Global, out: &Key, keys: Vec<Key>) -> Result<Vec<Key>, AllocError>
    ensures { IfOk result (λ kept. kept.items ≡ but out.now keys.items) }
{
    let mut kept = Vec::new(alloc);
    let mut left = keys.into_iter();
    'keys: while let Some(key) = left.next() {
        push_but(&mut kept, out, key)?;
    }
    Ok(kept)
}

/// What a default refers to; nothing where there is none. The only error is want of memory.
pub fn default_refs(alloc: Global, default: &Option<Text>) -> Result<Vec<Key>, AllocError>
    ensures { IfOk result (λ keys. keys.items ≡ default_references default.now) }
{
    match default {
        Some(text) => expr_refs(alloc, text.as_bytes()),
        None => Ok(Vec::new(alloc)),
    }
}

/// What checks refer to. The only error is want of memory.
pub fn check_refs(alloc: Global, checks: &[CheckDef]) -> Result<Vec<Key>, AllocError>
    ensures { IfOk result (λ keys. keys.items ≡ check_references checks.now) }
{
    let mut keys = Vec::new(alloc);
    for check in checks {
        let mut more = expr_refs(alloc, check.text.as_bytes())?;
        keys.append(&mut more)?;
    }
    Ok(keys)
}

// Each of the keys but one is there.
fn needs_but(alloc: Global, named: &NamedMap, out: Key, keys: Vec<Key>) -> Result<(), ApplyError>
    ensures { (next : Tree) → Steps result (outcome (needs_each (but out keys.items) next) (seen named.now)) (λ _. outcome next (seen named.now)) }
{
    let kept = but(alloc, &out, keys);
    let_go_key(out);
    needs_each(named, kept?)
}

/// Each of the keys is there, else the first that isn't is `Absent`; the type of this path needn't be.
pub fn needs_but_type(
    alloc: Global,
    named: &NamedMap,
    q: &QName,
    keys: Vec<Key>,
) -> Result<(), ApplyError>
    ensures { (next : Tree) → Steps result (outcome (needs_each (but (key.UserType q.now) keys.items) next) (seen named.now)) (λ _. outcome next (seen named.now)) }
{
    needs_but(alloc, named, Key::UserType(q.clone()?), keys)
}

/// Each of the keys is there, else the first that isn't is `Absent`; the relation of this path needn't be.
pub fn needs_but_relation(
    alloc: Global,
    named: &NamedMap,
    q: &QName,
    keys: Vec<Key>,
) -> Result<(), ApplyError>
    ensures { (next : Tree) → Steps result (outcome (needs_each (but (key.Rel q.now) keys.items) next) (seen named.now)) (λ _. outcome next (seen named.now)) }
{
    needs_but(alloc, named, Key::Rel(q.clone()?), keys)
}

//! Conditions on the columns and the keys of a table.
ghost use Rattle.std.specs.Prelude.{◌≡◌, map, IfOk};
ghost use Rattle.std.specs.FinMap.{entries};
ghost use Rattle.std.specs.List.{list_all};
ghost use Rattle.std.specs.Map.Iter.{deref_pair};
ghost use Rattle.cat_model.specs.declared.class.Class.TheVariants as class;
ghost use Rattle.cat_model.specs.declared.key.Key.{Key as TheKey};
ghost use Rattle.cat_model.specs.declared.value.Value.{Value as TheValue};
ghost use Rattle.cat_model.specs.KeyEffects.{no_primary, has_key};
ghost use Rattle.cat_model.specs.Tables.{column_there, columns_there};
ghost use Rattle.cat_model.specs.Trees.{Tree, class_of, outcome, seen};
ghost use Rattle.key_effects.specs.Keys.{first_key, has_none};
ghost use Rattle.eng_steps.specs.Outcomes.{Steps};

use crate::paths::names_of;
use cat_model::{Cause, Class, Column, Items, Key, QName, Value};
use copy_text::Name;
use distinct_names::are_distinct;
use eng_map::NamedMap;
use eng_steps::{ApplyError, column_there};
use std::alloc::{AllocError, Global};

fn all_there(columns: &[Column], names: &[Name]) -> bool
    ensures { result ≡ list_all (column_there columns.now) names.now }
{
    names.iter().all(|name| column_there(columns, name))
}

/// Whether all names are columns of the table, none twice. The only error is want of memory.
pub(crate) fn columns_there(
    alloc: Global,
    columns: &[Column],
    names: &Items<Name>,
) -> Result<bool, AllocError>
    ensures { IfOk result (λ there. there ≡ columns_there columns.now names.now) }
{
    let names = names.as_slice();
    let distinct = are_distinct(alloc, names)?;
    Ok(all_there(columns, names) && distinct)
}

// Lets a class go. Its drop is a call, so that it isn't written out where classes of all kinds end.
fn let_go_class(class: Class) {
    drop(class);
}

/// The keys of a class with their values, in the order of keys. The only error is want of memory.
pub fn entries_of(named: &NamedMap, class: Class) -> Result<Vec<(&Key, &Value)>, AllocError>
    ensures { IfOk result (λ found. map (deref_pair {K = TheKey} {X = TheValue}) found.items ≡ entries (class_of named.now class)) }
{
    let found = named.scan(&class);
    let_go_class(class);
    found
}

// The first of these keys.
fn first_key(found: &[(&Key, &Value)]) -> Result<Option<Key>, AllocError>
    ensures { IfOk result (λ first. first ≡ first_key (map (deref_pair {K = TheKey} {X = TheValue}) found.now)) }
{
    match found {
        [(key, _), ..] => Ok(Some((*key).clone()?)),
        [] => Ok(None),
    }
}

// The first primary key of a table.
fn first_primary(named: &NamedMap, q: &QName) -> Result<Option<Key>, AllocError>
    ensures { IfOk result (λ first. first ≡ first_key (entries (class_of named.now (class.PrimaryKeys q.now)))) }
{
    let found = entries_of(named, Class::PrimaryKeys(q.clone()?))?;
    first_key(&found)
}

/// The table has no primary key, else `Exists` of it.
pub(crate) fn no_primary(named: &NamedMap, q: &QName) -> Result<(), ApplyError>
    ensures { (next : Tree) → Steps result (outcome (no_primary q.now next) (seen named.now)) (λ _. outcome next (seen named.now)) }
{
    match first_primary(named, q)? {
        Some(key) => Err(ApplyError::Refused(Cause::Exists(key))),
        None => Ok(()),
    }
}

// Whether a table has no key on this set of columns.
fn without_key(named: &NamedMap, q: &QName, names: &Items<Name>) -> Result<bool, AllocError>
    ensures { IfOk result (λ none. none ≡ has_none (entries (class_of named.now (class.KeysOn q.now names.now)))) }
{
    let names = names_of(names)?;
    let found = entries_of(named, Class::KeysOn(q.clone()?, names))?;
    Ok(found.is_empty())
}

/// The parent has a primary key, a unique constraint or a unique index on this set of columns, else `KeyMissing`.
pub(crate) fn has_key(
    named: &NamedMap,
    parent: &QName,
    names: &Items<Name>,
) -> Result<(), ApplyError>
    ensures { (next : Tree) → Steps result (outcome (has_key parent.now names.now next) (seen named.now)) (λ _. outcome next (seen named.now)) }
{
    if without_key(named, parent, names)? {
        return Err(ApplyError::Refused(Cause::KeyMissing(Key::Rel(parent.clone()?))));
    }
    Ok(())
}

//! Keys that stand together.
ghost use Rattle.std.specs.Prelude.{◌≡◌, true, None, IfOk, OnOk};
ghost use Rattle.std.specs.BTreeMap.{get};
ghost use Rattle.std.specs.BTreeSet.{contains};
ghost use Rattle.std.specs.List.{AllByRecursion};
ghost use Rattle.cat_model.specs.declared.key.Key.{Key as TheKey};
ghost use Rattle.cat_model.specs.Keys.{key_cmp};
ghost use Rattle.cat_model.specs.Trees.{Change as TheChange};
ghost use Rattle.eng_map.specs.Groups.{group_of, class_group, is_listed, HasPlace};

use crate::let_go::let_go_key;
use crate::named_map::Change;
use cat_model::{Class, Key};
use std::alloc::{AllocError, Global};
use std::collections::{BTreeMap, BTreeSet};

/// Under a table's key, or that of a membership, the keys that stand with it.
pub(crate) type Groups = BTreeMap<Key, BTreeSet<Key>>;

// The key under which a key is listed.
fn group_of(key: &Key) -> Result<Option<Key>, AllocError>
    ensures { IfOk result (λ group. group ≡ group_of key.now) }
{
    match key {
        Key::Con(table, _) | Key::Index(table, _) => Ok(Some(Key::Rel(table.clone()?))),
        Key::Member(role, member, _) => {
            Ok(Some(Key::Member(role.clone()?, member.clone()?, member.clone()?)))
        }
        _ => Ok(None),
    }
}

/// The key under which the keys of a class are listed.
pub(crate) fn class_group(class: &Class) -> Result<Key, AllocError>
    ensures { IfOk result (λ group. group ≡ class_group class.now) }
{
    match class {
        Class::Constraints(table)
        | Class::Indexes(table)
        | Class::PrimaryKeys(table)
        | Class::KeysOn(table, _) => Ok(Key::Rel(table.clone()?)),
        Class::Members(role, member) => {
            Ok(Key::Member(role.clone()?, member.clone()?, member.clone()?))
        }
    }
}

fn add_to(keys: &mut BTreeSet<Key>, key: Key) -> Result<(), AllocError>
    ensures kept { (k : TheKey) → contains key_cmp keys.old k ≡ true → contains key_cmp keys.new k ≡ true }
    ensures added { OnOk result (contains key_cmp keys.new key ≡ true) }
{
    keys.insert(key)?;
    Ok(())
}

// A key under one that lists none yet.
fn add_first(alloc: Global, groups: &mut Groups, group: &Key, key: Key) -> Result<(), AllocError>
    requires { get key_cmp groups.old group.now ≡ None }
    ensures kept { (g k : TheKey) → is_listed groups.old g k ≡ true → is_listed groups.new g k ≡ true }
    ensures added { OnOk result (is_listed groups.new group.now key ≡ true) }
{
    let mut keys = BTreeSet::new(alloc);
    add_to(&mut keys, key)?;
    groups.insert(group.clone()?, keys)?;
    Ok(())
}

// A key under another.
fn add_under(alloc: Global, groups: &mut Groups, group: &Key, key: Key) -> Result<(), AllocError>
    ensures kept { (g k : TheKey) → is_listed groups.old g k ≡ true → is_listed groups.new g k ≡ true }
    ensures added { OnOk result (is_listed groups.new group.now key ≡ true) }
{
    match groups.get_mut(group) {
        Some(keys) => add_to(keys, key),
        None => add_first(alloc, groups, group, key),
    }
}

fn add_copy(alloc: Global, groups: &mut Groups, group: &Key, key: &Key) -> Result<(), AllocError>
    ensures kept { (g k : TheKey) → is_listed groups.old g k ≡ true → is_listed groups.new g k ≡ true }
    ensures added { OnOk result (is_listed groups.new group.now key.now ≡ true) }
{
    add_under(alloc, groups, group, key.clone()?)
}

// Lists a key where it stands with others.
fn add_key(alloc: Global, groups: &mut Groups, key: &Key) -> Result<(), AllocError>
    ensures kept { (g k : TheKey) → is_listed groups.old g k ≡ true → is_listed groups.new g k ≡ true }
    ensures placed { OnOk result (HasPlace groups.new key.now) }
{
    match group_of(key)? {
        Some(group) => {
            let added = add_copy(alloc, groups, &group, key);
            let_go_key(group);
            added
        }
        None => Ok(()),
    }
}

/// Lists the keys of changes where they stand with others. After an `Err` some may be listed, and none is gone.
pub(crate) fn add_keys(
    alloc: Global,
    groups: &mut Groups,
    changes: &[Change],
) -> Result<(), AllocError>
    ensures kept { (g k : TheKey) → is_listed groups.old g k ≡ true → is_listed groups.new g k ≡ true }
    ensures placed { OnOk result (AllByRecursion (λ (c : TheChange). HasPlace groups.new c.0) changes.now) }
{
    for change in changes {
        add_key(alloc, groups, &change.0)?;
    }
    Ok(())
}

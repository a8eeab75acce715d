//! The catalogue by names as a map.
ghost use Rattle.std.specs.Prelude.{◌≡◌, ◌+◌, ◌<◌, ◌≤◌, map, IfOk, OnOk, OnErr, vec_len};
ghost use Rattle.std.specs.FinMap.{empty, entries, get, from_entries};
ghost use Rattle.std.specs.List.{IsDistinct};
ghost use Rattle.std.specs.Map.{keys_of};
ghost use Rattle.std.specs.Map.Iter.{deref_pair};
ghost use Rattle.std.specs.Option.{option_copied};
ghost use Rattle.indexmap.specs.IndexMap.{spare};
ghost use Rattle.cat_model.specs.declared.key.Key.{Key as TheKey};
ghost use Rattle.cat_model.specs.declared.value.Value.{Value as TheValue};
ghost use Rattle.cat_model.specs.Keys.{key_eq};
ghost use Rattle.cat_model.specs.Trees.{changed, changed_at, class_of};

use crate::entries::{Entries, backwards};
use crate::groups::{Groups, add_keys, class_group};
use crate::let_go::{let_go, let_go_key};
use crate::picks::picked;
use cat_model::{Class, Key, Value};
use indexmap::IndexMap;
use indexmap::map::Iter;
use std::alloc::{AllocError, Global};
use std::collections::BTreeMap;
use std::marker::Model;

/// A key, and the value that it gets; `None` takes it out.
pub type Change = (Key, Option<Value>);

/// The catalogue by names: values under keys. A contract sees a finite map.
#[derive(Drop)]
pub struct NamedMap {
    alloc: Global,
    values: IndexMap<Key, Value>,
    // The keys that stand together, with some that have no value any more.
    groups: Groups,
}

impl Model for NamedMap {
    ghost use Rattle.std.specs.FinMap.{from_entries, code, get};
    ghost use Rattle.cat_model.specs.contracts.key.Key as key;
    ghost use Rattle.cat_model.specs.contracts.value.Value as value;
    ghost use Rattle.cat_model.specs.Keys.{key_cmp};
    ghost use Rattle.cat_model.specs.Values.{Named};
    ghost use Rattle.eng_map.specs.Groups.{AreGrouped};

    ghost Value = { Named };

    ghost coded = { code key.the_row.coded value.the_row.coded };

    ghost view = { λ m. from_entries m.values.entries };

    ghost invariant = { λ m. AreGrouped (get {R = key_cmp} (from_entries m.values.entries)) m.groups };
}

// Makes a change where there is room for it.
fn put(values: &mut IndexMap<Key, Value>, change: Change)
    requires { 0 < spare values.old }
    ensures seen { from_entries values.new.entries ≡ changed_at (from_entries values.old.entries) change.0 change.1 }
    ensures room { spare values.old ≤ spare values.new + 1 }
{
    let (key, value) = change;
    match value {
        Some(value) => let_go(values.insert(key, value).unwrap()),
        None => {
            let_go(values.swap_remove(&key));
            let_go_key(key);
        }
    }
}

// Makes all changes where there is room for them.
fn put_all(values: &mut IndexMap<Key, Value>, changes: Vec<Change>)
    requires { vec_len changes ≤ spare values.old }
    ensures { from_entries values.new.entries ≡ changed changes.items (from_entries values.old.entries) }
{
    let mut left = changes.into_iter();
    'changes: while let Some(change) = left.next() {
        put(values, change);
    }
}

impl NamedMap {
    /// No key has a value.
    pub fn new(alloc: Global) -> NamedMap
        ensures { result ≡ empty }
    {
        NamedMap {
            alloc,
            values: IndexMap::new(alloc),
            groups: BTreeMap::new(alloc),
        }
    }

    /// The map of these entries, of which the first of a key counts. The error is that memory ran out.
    pub fn of(alloc: Global, entries: Entries) -> Result<NamedMap, AllocError>
        ensures { IfOk result (λ named. named ≡ from_entries entries.items) }
    {
        let changes = backwards(alloc, entries)?;
        let mut named = NamedMap::new(alloc);
        named.commit(changes)?;
        Ok(named)
    }

    /// The value of a key.
    pub fn get(&self, key: &Key) -> Option<&Value>
        ensures { option_copied result ≡ get self.now key.now }
    {
        self.values.get(key)
    }

    /// Makes changes one after another. Without memory none is made.
    pub fn commit(&mut self, changes: Vec<Change>) -> Result<(), AllocError>
        ensures ok { OnOk result (self.new ≡ changed changes.items self.old) }
        ensures err { OnErr result (self.new ≡ self.old) }
    {
        self.values.reserve(changes.len())?;
        add_keys(self.alloc, &mut self.groups, &changes)?;
        put_all(&mut self.values, changes);
        Ok(())
    }

    /// All keys that have a value, with these, in no order that a contract speaks of. No key stands twice.
    pub fn iter(&self) -> Iter<'_, Key, Value>
        ensures seen { from_entries result ≡ self.now }
        ensures distinct { IsDistinct key_eq (keys_of result) }
    {
        self.values.iter()
    }

    /// The keys of a class with their values, in the order of keys. It goes over the keys that stand together alone,
    /// as those of one table. The error is that memory ran out.
    pub fn scan(&self, class: &Class) -> Result<Vec<(&Key, &Value)>, AllocError>
        ensures { IfOk result (λ found. map (deref_pair {K = TheKey} {X = TheValue}) found.items ≡ entries (class_of self.now class.now)) }
    {
        let group = class_group(class)?;
        let found = match self.groups.get(&group) {
            Some(keys) => picked(self.alloc, &self.values, class, keys),
            None => Ok(Vec::new(self.alloc)),
        };
        let_go_key(group);
        found
    }
}

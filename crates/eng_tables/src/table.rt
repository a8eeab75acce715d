//! A table of rows by oid and by key.
ghost use Rattle.std.specs.Prelude.{◌≡◌, ◌↔◌, ◌||◌, ℕ, ◌<◌, ◌≤◌, Some, None, Err, IsSome, IfSome, IfNone, IfErr, is_some, OnOk, OnErr};
ghost use Rattle.std.specs.BTreeMap as tree;
ghost use Rattle.std.specs.FinMap.{empty, entries, get, insert, remove};
ghost use Rattle.std.specs.Option.{option_copied, option_map};
ghost use Rattle.std.specs.Ordering.{nat_cmp};
ghost use Rattle.indexmap.specs.IndexMap as index;
ghost use Rattle.cat_model.specs.declared.key.Key.{Key as TheKey};
ghost use Rattle.cat_model.specs.Keys.{key_eq};
ghost use Rattle.eng_tables.specs.Tables.{key_at, row_at, IsTaken, IsNext, replaced};

use crate::fault::InsertFault;
use crate::let_go::{let_go_entry, let_go_failed, let_go_key, let_go_oid, let_go_row};
use cat_model::Key;
use indexmap::IndexMap;
use std::alloc::Global;
use std::collections::BTreeMap;
use std::collections::btree_map::Iter;
use std::marker::Model;
use std::mem;

/// Rows, each with an oid and the key of what it stands for; no two have one oid or one key. A contract sees a finite
/// map from oids to keys and rows.
#[derive(Drop)]
pub struct EngTable<R> {
    rows: BTreeMap<u32, (Key, R)>,
    oids: IndexMap<Key, u32>,
}

impl<R> Model for EngTable<R> {
    ghost use Rattle.std.specs.Coded.{coded×, coded_ℕ};
    ghost use Rattle.std.specs.FinMap.{from_entries, code};
    ghost use Rattle.indexmap.specs.IndexMap.{get};
    ghost use Rattle.cat_model.specs.contracts.key.Key as key;
    ghost use Rattle.cat_model.specs.Keys.{key_eq};
    ghost use Rattle.eng_tables.specs.Tables.{Rows, AreNames};

    ghost Value = { Rows R };

    ghost coded = { code coded_ℕ (coded× key.the_row.coded R.code) };

    ghost view = { λ t. from_entries t.rows.entries };

    ghost invariant = { λ t. AreNames (get key_eq t.oids) (from_entries t.rows.entries) };
}

// A row whose oid is new, and its key for which there is room.
fn put_both<R: Drop>(
    rows: &mut BTreeMap<u32, (Key, R)>,
    oids: &mut IndexMap<Key, u32>,
    oid: u32,
    copy: Key,
    key: Key,
    row: R,
) -> Result<(), InsertFault>
    requires { 0 < index.spare oids.old }
    ensures rows { OnOk result (tree.Updates nat_cmp rows.old rows.new oid (Some (copy, row))) }
    ensures oids { OnOk result (index.Updates key_eq oids.old oids.new key (Some oid)) }
    ensures memory { IfErr result (λ fault. fault ≡ InsertFault.Memory) }
    ensures err { OnErr result ((rows.new.entries ≡ rows.old.entries) × (oids.new.entries ≡ oids.old.entries)) }
{
    match rows.insert(oid, (copy, row)) {
        Ok(old) => {
            let_go_entry(old);
            let_go_oid(oids.insert(key, oid).unwrap());
            Ok(())
        }
        Err(failed) => {
            let_go_failed(failed);
            let_go_key(key);
            Err(InsertFault::Memory)
        }
    }
}

fn add_both<R: Drop>(
    rows: &mut BTreeMap<u32, (Key, R)>,
    oids: &mut IndexMap<Key, u32>,
    oid: u32,
    key: Key,
    row: R,
) -> Result<(), InsertFault>
    requires { 0 < index.spare oids.old }
    ensures rows { OnOk result (tree.Updates nat_cmp rows.old rows.new oid (Some (key, row))) }
    ensures oids { OnOk result (index.Updates key_eq oids.old oids.new key (Some oid)) }
    ensures memory { IfErr result (λ fault. fault ≡ InsertFault.Memory) }
    ensures err { OnErr result ((rows.new.entries ≡ rows.old.entries) × (oids.new.entries ≡ oids.old.entries)) }
{
    match key.clone() {
        Ok(copy) => put_both(rows, oids, oid, copy, key, row),
        Err(_) => {
            let_go_key(key);
            let_go_row(row);
            Err(InsertFault::Memory)
        }
    }
}

// Both or none of a row and its key.
fn add<R: Drop>(
    rows: &mut BTreeMap<u32, (Key, R)>,
    oids: &mut IndexMap<Key, u32>,
    oid: u32,
    key: Key,
    row: R,
) -> Result<(), InsertFault>
    ensures rows { OnOk result (tree.Updates nat_cmp rows.old rows.new oid (Some (key, row))) }
    ensures oids { OnOk result (index.Updates key_eq oids.old oids.new key (Some oid)) }
    ensures memory { IfErr result (λ fault. fault ≡ InsertFault.Memory) }
    ensures err { OnErr result ((rows.new.entries ≡ rows.old.entries) × (oids.new.entries ≡ oids.old.entries)) }
{
    match oids.reserve(1) {
        Ok(()) => add_both(rows, oids, oid, key, row),
        Err(_) => {
            let_go_key(key);
            let_go_row(row);
            Err(InsertFault::Memory)
        }
    }
}

// Whether a row has the oid or the key.
fn is_taken<R>(
    rows: &BTreeMap<u32, (Key, R)>,
    oids: &IndexMap<Key, u32>,
    oid: u32,
    key: &Key,
) -> bool
    ensures { result ≡ (is_some (tree.get nat_cmp rows.now oid) || is_some (index.get key_eq oids.now key.now)) }
{
    rows.contains_key(&oid) || oids.contains_key(key)
}

// The least oid from a number on.
fn next_in<R>(rows: &BTreeMap<u32, (Key, R)>, from: u32) -> Option<u32>
    ensures there { IfSome result (λ oid. (from ≤ oid) × IsSome (tree.get nat_cmp rows.now oid)) }
    ensures least { IfSome result (λ oid. (other : ℕ) → from ≤ other → other < oid → tree.get nat_cmp rows.now other ≡ None) }
    ensures none { IfNone result ((other : ℕ) → from ≤ other → tree.get nat_cmp rows.now other ≡ None) }
{
    match rows.range(from..).next() {
        Some((oid, _)) => Some(*oid),
        None => None,
    }
}

// Puts a row in place of another, under the same key.
fn replace_in<R: Drop>(rows: &mut BTreeMap<u32, (Key, R)>, oid: u32, row: R) -> Option<R>
    ensures old { result ≡ option_map (λ e. e.1) (tree.get nat_cmp rows.old oid) }
    ensures there { (e : TheKey × R) → tree.get nat_cmp rows.old oid ≡ Some e → tree.Updates nat_cmp rows.old rows.new oid (Some (e.0, row)) }
    ensures none { tree.get nat_cmp rows.old oid ≡ None → rows.new.entries ≡ rows.old.entries }
{
    match rows.get_mut(&oid) {
        Some(entry) => Some(mem::replace(&mut entry.1, row)),
        None => {
            let_go_row(row);
            None
        }
    }
}

impl<R: Drop> EngTable<R> {
    /// No rows.
    pub fn new(alloc: Global) -> EngTable<R>
        ensures { result ≡ empty }
    {
        EngTable {
            rows: BTreeMap::new(alloc),
            oids: IndexMap::new(alloc),
        }
    }

    /// The oid of the row with a key.
    pub fn find_name(&self, key: &Key) -> Option<u32>
        ensures { (oid : ℕ) → (result ≡ Some oid) ↔ (key_at self.now oid ≡ Some key.now) }
    {
        self.oids.get(key).copied()
    }

    /// The row with an oid.
    pub fn find_oid(&self, oid: u32) -> Option<&R>
        ensures { option_copied result ≡ row_at self.now oid }
    {
        match self.rows.get(&oid) {
            Some(entry) => Some(&entry.1),
            None => None,
        }
    }

    /// The least oid that a row has and that is at least `from`.
    pub fn next_oid(&self, from: u32) -> Option<u32>
        ensures { IsNext from self.now result }
    {
        next_in(&self.rows, from)
    }

    /// The rows with their keys, by oid.
    pub fn iter(&self) -> Iter<'_, u32, (Key, R)>
        ensures { result ≡ entries self.now }
    {
        self.rows.iter()
    }

    /// One more row. After an `Err` all is as it was.
    ///
    /// # Errors
    ///
    /// `Repeated`, exactly where a row has the oid or the key. `Memory`.
    pub fn insert(&mut self, oid: u32, key: Key, row: R) -> Result<(), InsertFault>
        ensures ok { OnOk result (self.new ≡ insert self.old oid (key, row)) }
        ensures repeated { (result ≡ Err InsertFault.Repeated) ↔ IsTaken self.old oid key }
        ensures err { OnErr result (self.new ≡ self.old) }
    {
        if is_taken(&self.rows, &self.oids, oid, &key) {
            let_go_key(key);
            let_go_row(row);
            return Err(InsertFault::Repeated);
        }
        add(&mut self.rows, &mut self.oids, oid, key, row)
    }

    /// Puts a row in place of the one with an oid, which comes back. Where none has the oid nothing changes.
    pub fn replace(&mut self, oid: u32, row: R) -> Option<R>
        ensures old { result ≡ row_at self.old oid }
        ensures new { self.new ≡ replaced self.old oid row }
    {
        replace_in(&mut self.rows, oid, row)
    }

    /// Takes out the row with an oid, and its key.
    pub fn remove(&mut self, oid: u32) -> Option<R>
        ensures old { result ≡ row_at self.old oid }
        ensures new { self.new ≡ remove self.old oid }
    {
        match self.rows.remove(&oid) {
            Some((key, row)) => {
                let_go_oid(self.oids.swap_remove(&key));
                let_go_key(key);
                Some(row)
            }
            None => None,
        }
    }
}

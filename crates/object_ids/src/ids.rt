//! Which oid each has, and new oids.
ghost use Rattle.std.specs.Prelude.{◌≡◌, ◌&&◌, not, true, false, Some, None, IfOk, OnOk, OnErr};
ghost use Rattle.std.specs.BTreeMap as tree;
ghost use Rattle.std.specs.BTreeSet as sorted;
ghost use Rattle.std.specs.FinMap.{get};
ghost use Rattle.std.specs.FinSet.{contains};
ghost use Rattle.object_ids.specs.Slots.{slot_cmp, table_of};
ghost use Rattle.object_ids.specs.Ids.{AreApart, none, fits, with_id, added, avoiding, IsNumbered, IsNumberedFrom, row_cmp};

use crate::let_go::let_go_failed;
use crate::slots::{Slot, table};
use cat_model::Key;
use eng_tables::OidSet;
use std::alloc::{AllocError, Global};
use std::collections::{BTreeMap, BTreeSet};
use std::marker::Model;

/// The oids of objects, of checks of domains and of labels of enums. A contract sees which each has, the rows that have
/// them, and the oids in use, of which no new one is drawn.
#[derive(Drop)]
pub struct Ids {
    ids: BTreeMap<(u64, Key), u32>,
    rows: BTreeSet<(u64, u32)>,
    used: OidSet,
}

impl Model for Ids {
    ghost use Rattle.std.specs.FinMap.{from_entries};
    ghost use Rattle.std.specs.FinSet.{from_list};
    ghost use Rattle.object_ids.specs.Ids.{IdsOf, ids_code, AreApart};

    ghost Value = { IdsOf };

    ghost coded = { ids_code };

    ghost view = { λ i. record { ids = from_entries i.ids.entries; rows = from_list i.rows.keys; used = i.used } };

    ghost invariant = { λ i. AreApart (record { ids = from_entries i.ids.entries; rows = from_list i.rows.keys; used = i.used }) };
}

// The same again.
fn copied(slot: &Slot) -> Result<Slot, AllocError>
    ensures { IfOk result (λ copy. copy ≡ slot.now) }
{
    let key = slot.1.clone()?;
    Ok((slot.0, key))
}

// Gives it an oid, handed over.
fn insert(ids: &mut BTreeMap<(u64, Key), u32>, slot: Slot, oid: u32) -> Result<(), AllocError>
    ensures ok { OnOk result (tree.Updates slot_cmp ids.old ids.new slot (Some oid)) }
    ensures err { OnErr result (ids.new.entries ≡ ids.old.entries) }
{
    match ids.insert(slot, oid) {
        Ok(_) => Ok(()),
        Err(failed) => {
            let_go_failed(failed);
            Err(AllocError)
        }
    }
}

// Gives it an oid.
fn put_id(ids: &mut BTreeMap<(u64, Key), u32>, slot: &Slot, oid: u32) -> Result<(), AllocError>
    ensures ok { OnOk result (tree.Updates slot_cmp ids.old ids.new slot.now (Some oid)) }
    ensures err { OnErr result (ids.new.entries ≡ ids.old.entries) }
{
    insert(ids, copied(slot)?, oid)
}

// One more row that has an oid.
fn put_row(rows: &mut BTreeSet<(u64, u32)>, table: u64, oid: u32) -> Result<(), AllocError>
    ensures ok { OnOk result (sorted.Updates row_cmp rows.old rows.new (table, oid) true) }
    ensures err { OnErr result (rows.new.keys ≡ rows.old.keys) }
{
    rows.insert((table, oid))?;
    Ok(())
}

// Whether none of these holds.
fn none_of(has: bool, taken: bool, zero: bool) -> bool
    ensures { result ≡ (not has && not taken && not zero) }
{
    !has && !taken && !zero
}

impl Ids {
    /// None has an oid.
    pub fn new(alloc: Global) -> Ids
        ensures { result ≡ none }
    {
        Ids {
            ids: BTreeMap::new(alloc),
            rows: BTreeSet::new(alloc),
            used: OidSet::new(alloc),
        }
    }

    /// The oid that it has.
    pub fn get(&self, slot: &Slot) -> Option<u32>
        ensures { result ≡ get self.now.ids slot.now }
    {
        self.ids.get(slot).copied()
    }

    /// Those of one table's rows are apart, and none is 0.
    pub fn are_apart(&self)
        ensures { AreApart self.now }
    {
        let _ids = &self.ids;
    }

    // Whether it may have this oid.
    fn fits(&self, slot: &Slot, oid: u32) -> bool
        ensures { result ≡ fits self.now slot.now oid }
    {
        let has = self.ids.contains_key(slot);
        let taken = self.rows.contains(&(table(slot), oid));
        none_of(has, taken, oid == 0)
    }

    // Gives it an oid that it may have.
    fn add(&mut self, slot: &Slot, oid: u32) -> Result<(), AllocError>
        requires free { contains self.old.rows (table_of slot.now, oid) ≡ false }
        requires some { oid ≡ 0 → ⊥ }
        ensures ok { OnOk result (self.new ≡ added self.old slot.now oid) }
        ensures err { OnErr result (self.new.ids ≡ self.old.ids) }
    {
        self.used.put(oid)?;
        put_row(&mut self.rows, table(slot), oid)?;
        put_id(&mut self.ids, slot, oid)
    }

    /// An oid that no new one is to have. After an `Err` all is as it was.
    pub fn avoid(&mut self, oid: u32) -> Result<(), AllocError>
        ensures ok { OnOk result (self.new ≡ avoiding self.old oid) }
        ensures err { OnErr result (self.new ≡ self.old) }
    {
        self.used.put(oid)
    }

    /// Gives it this oid, where it has none, no other row of its table has the oid, and the oid isn't 0; else all stays as it
    /// is. After an `Err` each has the oid that it had.
    pub fn put(&mut self, slot: &Slot, oid: u32) -> Result<(), AllocError>
        ensures ok { OnOk result (self.new ≡ with_id self.old slot.now oid) }
        ensures err { OnErr result (self.new.ids ≡ self.old.ids) }
    {
        if self.fits(slot, oid) {
            return self.add(slot, oid);
        }
        Ok(())
    }

    /// Gives it the least oid from 16384 up that isn't in use, where it has none. Whether it has one at the end: it has none
    /// where none is left. After an `Err` each has the oid that it had.
    pub fn number(&mut self, slot: &Slot) -> Result<bool, AllocError>
        ensures ok { IfOk result (λ done. IsNumbered self.old slot.now done self.new) }
        ensures err { OnErr result (self.new.ids ≡ self.old.ids) }
    {
        match self.get(slot) {
            Some(_) => Ok(true),
            None => self.draw(slot),
        }
    }

    // Gives it a new oid, where it has none.
    fn draw(&mut self, slot: &Slot) -> Result<bool, AllocError>
        requires { get self.old.ids slot.now ≡ None }
        ensures ok { IfOk result (λ done. IsNumberedFrom None self.old slot.now done self.new) }
        ensures err { OnErr result (self.new.ids ≡ self.old.ids) }
    {
        match self.used.take()? {
            Some(oid) => {
                put_row(&mut self.rows, table(slot), oid)?;
                put_id(&mut self.ids, slot, oid)?;
                Ok(true)
            }
            None => Ok(false),
        }
    }
}

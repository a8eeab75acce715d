//! Oids that are used, and the next one that isn't.
ghost use Rattle.std.specs.Prelude.{◌≡◌, ℕ, ◌<◌, ◌≤◌, true, false, IfOk, OnOk, OnErr};
ghost use Rattle.std.specs.BTreeSet as tree;
ghost use Rattle.std.specs.FinSet.{empty, insert};
ghost use Rattle.std.specs.Ordering.{nat_cmp};
ghost use Rattle.eng_tables.specs.Oids.{IsLeastUnused, with_oid};

use std::alloc::{AllocError, Global};
use std::collections::BTreeSet;
use std::marker::Model;

// The oids below are the system's own (FirstNormalObjectId).
const FIRST: u32 = 16384;

/// Oids that are used. A contract sees the finite set of them.
#[derive(Drop)]
pub struct OidSet {
    used: BTreeSet<u32>,
    // Each oid from `FIRST` up to this one is used.
    next: u32,
}

impl Model for OidSet {
    ghost use Rattle.std.specs.Prelude.{◌≡◌, ℕ, ◌<◌, ◌≤◌, true};
    ghost use Rattle.std.specs.Coded.{coded_ℕ};
    ghost use Rattle.std.specs.BTreeSet.{contains};
    ghost use Rattle.std.specs.FinSet.{from_list, code};
    ghost use Rattle.std.specs.Ordering.{nat_cmp};
    ghost use Rattle.eng_tables.specs.Oids.{Oids};

    ghost Value = { Oids };

    ghost coded = { code coded_ℕ };

    ghost view = { λ s. from_list s.used.keys };

    ghost invariant = { λ s. (16384 ≤ s.next) × ((other : ℕ) → 16384 ≤ other → other < s.next → contains nat_cmp s.used other ≡ true) };
}

// The least oid from a number on that isn't used; the greatest number where all below it are.
fn least_unused(used: &BTreeSet<u32>, from: u32) -> u32
    ensures from { from ≤ result }
    ensures fits { result ≤ 4294967295 }
    ensures below { (other : ℕ) → from ≤ other → other < result → tree.contains nat_cmp used.now other ≡ true }
    ensures unused { result < 4294967295 → tree.contains nat_cmp used.now result ≡ false }
{
    for n in from..u32::MAX {
        if !used.contains(&n) {
            return n;
        }
    }
    u32::MAX
}

impl OidSet {
    /// No oid is used.
    pub fn new(alloc: Global) -> OidSet
        ensures { result ≡ empty }
    {
        OidSet {
            used: BTreeSet::new(alloc),
            next: FIRST,
        }
    }

    /// One more that is used. After an `Err` all is as it was.
    pub fn put(&mut self, oid: u32) -> Result<(), AllocError>
        ensures ok { OnOk result (self.new ≡ insert self.old oid) }
        ensures err { OnErr result (self.new ≡ self.old) }
    {
        self.used.insert(oid)?;
        Ok(())
    }

    /// The oid of a new object: the least from 16384 up that isn't used, which is used from then on; `None` where all
    /// are. All calls together go over each used oid once. After an `Err` all is as it was.
    pub fn take(&mut self) -> Result<Option<u32>, AllocError>
        ensures least { IfOk result (λ oid. IsLeastUnused self.old oid) }
        ensures used { IfOk result (λ oid. self.new ≡ with_oid self.old oid) }
        ensures err { OnErr result (self.new ≡ self.old) }
    {
        let oid = least_unused(&self.used, self.next);
        if oid == u32::MAX {
            return Ok(None);
        }
        self.used.insert(oid)?;
        self.next = oid;
        Ok(Some(oid))
    }
}

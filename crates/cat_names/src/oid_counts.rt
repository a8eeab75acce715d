//! How often oids occur.
ghost use Rattle.std.specs.Prelude.{◌≡◌, [], ◌∷◌, ◌++◌, IfOk, OnOk, ◌≤◌};
ghost use Rattle.cat_names.specs.Lookups.{count_of};

use std::alloc::{AllocError, Global};
use std::collections::BTreeMap;
use std::marker::Model;

/// Oids with the number of their occurrences. A contract sees the list of them.
#[derive(Drop)]
pub struct OidCounts {
    oids: Vec<u32>,
    counts: BTreeMap<u32, usize>,
}

impl Model for OidCounts {
    ghost use Rattle.std.specs.Prelude.{List, ℕ};
    ghost use Rattle.cat_names.specs.Indexed.{AreCounts};

    ghost Value = { List ℕ };

    ghost view = { λ x. x.oids.items };

    ghost invariant = { λ x. AreCounts x.oids.items x.counts };
}

impl OidCounts {
    /// No oids.
    pub fn new(alloc: Global) -> OidCounts
        ensures { result ≡ [] }
    {
        OidCounts {
            oids: Vec::new(alloc),
            counts: BTreeMap::new(alloc),
        }
    }

    /// Adds an oid behind the others.
    pub fn push(&mut self, oid: u32) -> Result<(), AllocError>
        ensures { OnOk result (self.new ≡ self.old ++ oid ∷ []) }
    {
        self.oids.reserve(1)?;
        let count = self.count(oid);
        self.counts.insert(oid, count + 1)?;
        self.oids.push(oid).unwrap();
        Ok(())
    }

    /// These oids.
    pub fn of(alloc: Global, oids: &[u32]) -> Result<OidCounts, AllocError>
        ensures { IfOk result (λ counts. counts ≡ oids.now) }
    {
        let mut counts = OidCounts::new(alloc);
        for oid in oids {
            counts.push(*oid)?;
        }
        Ok(counts)
    }

    /// How many of the oids are this one.
    pub fn count(&self, oid: u32) -> usize
        ensures { result ≡ count_of self.now oid }
    {
        self.counts.get(&oid).copied().unwrap_or(0)
    }
}

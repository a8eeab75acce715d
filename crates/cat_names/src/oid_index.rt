//! Oids, found by their places.
ghost use Rattle.std.specs.Prelude.{◌≡◌, [], ◌∷◌, ◌++◌, ℕ, true, false, cond, not, Some, is_some, IfOk, OnOk, OnErr};
ghost use Rattle.std.specs.BTreeMap.{get};
ghost use Rattle.std.specs.Ordering.{nat_cmp, eq_by_cmp};
ghost use Rattle.cat_names.specs.Lookups.{has_oid, place_of};

use std::alloc::{AllocError, Global};
use std::collections::BTreeMap;
use std::marker::Model;

/// Oids in their order, found without going through them. A contract sees the list of them.
#[derive(Drop)]
pub struct OidIndex {
    oids: Vec<u32>,
    places: BTreeMap<u32, usize>,
}

impl Model for OidIndex {
    ghost use Rattle.std.specs.Prelude.{List, ℕ};
    ghost use Rattle.cat_names.specs.Indexed.{IsIndexed};

    ghost Value = { List ℕ };

    ghost view = { λ x. x.oids.items };

    ghost invariant = { λ x. IsIndexed x.oids.items x.places };
}

impl OidIndex {
    /// No oids.
    pub fn new(alloc: Global) -> OidIndex
        ensures { result ≡ [] }
    {
        OidIndex {
            oids: Vec::new(alloc),
            places: BTreeMap::new(alloc),
        }
    }

    /// Adds an oid behind the others, and answers whether it is there for the first time.
    pub fn push(&mut self, oid: u32) -> Result<bool, AllocError>
        ensures first { IfOk result (λ first. first ≡ not (has_oid self.old oid)) }
        ensures pushed { OnOk result (self.new ≡ self.old ++ oid ∷ []) }
    {
        self.oids.reserve(1)?;
        let first = add_place(&mut self.places, oid, self.oids.len())?;
        self.oids.push(oid).unwrap();
        Ok(first)
    }

    /// These oids.
    pub fn of(alloc: Global, oids: &[u32]) -> Result<OidIndex, AllocError>
        ensures { IfOk result (λ index. index ≡ oids.now) }
    {
        let mut index = OidIndex::new(alloc);
        for oid in oids {
            index.push(*oid)?;
        }
        Ok(index)
    }

    /// Whether there is such an oid.
    pub fn has(&self, oid: u32) -> bool
        ensures { result ≡ has_oid self.now oid }
    {
        self.find(oid).is_some()
    }

    /// The place of the first such oid, counted from 0.
    pub fn find(&self, oid: u32) -> Option<usize>
        ensures { result ≡ place_of oid self.now }
    {
        self.places.get(&oid).copied()
    }
}

// Gives an oid a place, unless it has one, and answers whether it had none.
fn add_place(places: &mut BTreeMap<u32, usize>, oid: u32, place: usize) -> Result<bool, AllocError>
    ensures first { IfOk result (λ first. first ≡ not (is_some (get nat_cmp places.old oid))) }
    ensures new { IfOk result (λ first. first ≡ true → (q : ℕ) → get nat_cmp places.new q ≡ cond (eq_by_cmp nat_cmp oid q) (Some place) (get nat_cmp places.old q)) }
    ensures old { IfOk result (λ first. first ≡ false → (q : ℕ) → get nat_cmp places.new q ≡ get nat_cmp places.old q) }
    ensures err { OnErr result ((q : ℕ) → get nat_cmp places.new q ≡ get nat_cmp places.old q) }
{
    if places.contains_key(&oid) {
        return Ok(false);
    }
    places.insert(oid, place)?;
    Ok(true)
}

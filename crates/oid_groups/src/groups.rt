//! Keys, found by their oids and numbers.
ghost use Rattle.std.specs.Prelude.{◌≡◌, ◌≤◌, length, map, IfOk};
ghost use Rattle.std.specs.List.{slice_get};
ghost use Rattle.std.specs.List.Sorted.{IsNonDecreasingBy, IsSorted};
ghost use Rattle.oid_groups.specs.Groups.{numbered_keys, group_of, first_place};
ghost use Rattle.oid_groups.specs.Sorted.{key_cmp, IsInOrder, IsOidStart, IsOidEnd, IsKeyStart};

use std::alloc::{AllocError, Global};
use std::marker::Model;

/// Keys of an oid and a number among those of the same oid, found without going through them. A contract sees the list of
/// them, as they were given.
#[derive(Drop)]
pub struct Groups {
    keys: Vec<(u32, i64)>,
    // The keys in order, and beside each its place in `keys`.
    sorted: Vec<(u32, i64)>,
    places: Vec<usize>,
}

impl Model for Groups {
    ghost use Rattle.std.specs.Prelude.{List, ℕ, ℤ};
    ghost use Rattle.oid_groups.specs.Sorted.{AreSorted};

    ghost Value = { List (ℕ × ℤ) };

    ghost view = { λ g. g.keys.items };

    ghost invariant = { λ g. AreSorted g.keys.items g.sorted.items g.places.items };
}

impl Groups {
    /// These keys: any number of them, in any order, and with any repeated. The only error is that memory ran out.
    pub fn of(alloc: Global, keys: Vec<(u32, i64)>) -> Result<Groups, AllocError>
        ensures { IfOk result (λ groups. groups ≡ keys.items) }
    {
        let entries = in_order(alloc, &keys)?;
        let sorted = keys_of(alloc, &entries)?;
        let places = places_of(alloc, &entries)?;
        Ok(Groups {
            keys,
            sorted,
            places,
        })
    }

    /// The places of the keys of this oid by rising numbers, counted from 0; keys of one number stand as they were given.
    /// Empty where no key has this oid.
    pub fn group(&self, oid: u32) -> &[usize]
        ensures { result.now ≡ group_of self.now oid }
    {
        let start = oid_start(&self.sorted, oid);
        let end = oid_end(&self.sorted, oid);
        &self.places[start..end]
    }

    /// The place of the first key of this oid and this number, counted from 0; `None` where there is none.
    pub fn first(&self, oid: u32, number: i64) -> Option<usize>
        ensures { result ≡ first_place self.now oid number }
    {
        let wanted = (oid, number);
        let at = key_start(&self.sorted, wanted);
        match key_at(&self.sorted, at) {
            Some(key) if key == wanted => place_at(&self.places, at),
            _ => None,
        }
    }
}

// The keys with their places, in order.
fn in_order(alloc: Global, keys: &[(u32, i64)]) -> Result<Vec<(usize, (u32, i64))>, AllocError>
    ensures { IfOk result (λ entries. IsInOrder keys.now entries.items) }
{
    let mut entries = numbered(alloc, keys)?;
    entries.sort_by_key(|entry| entry.1)?;
    Ok(entries)
}

fn numbered(alloc: Global, keys: &[(u32, i64)]) -> Result<Vec<(usize, (u32, i64))>, AllocError>
    ensures { IfOk result (λ entries. entries.items ≡ numbered_keys keys.now) }
{
    keys.iter().copied().enumerate().collect(alloc)
}

fn keys_of(alloc: Global, entries: &[(usize, (u32, i64))]) -> Result<Vec<(u32, i64)>, AllocError>
    ensures { IfOk result (λ keys. keys.items ≡ map (λ e. e.1) entries.now) }
{
    entries.iter().map(|entry| entry.1).collect(alloc)
}

fn places_of(alloc: Global, entries: &[(usize, (u32, i64))]) -> Result<Vec<usize>, AllocError>
    ensures { IfOk result (λ places. places.items ≡ map (λ e. e.0) entries.now) }
{
    entries.iter().map(|entry| entry.0).collect(alloc)
}

// Where the keys of lower oids end, in keys whose oids rise.
fn oid_start(sorted: &[(u32, i64)], oid: u32) -> usize
    ensures within { result ≤ length sorted.now }
    ensures start { IsNonDecreasingBy (λ k. k.0) sorted.now → IsOidStart sorted.now oid result }
{
    sorted.partition_point(|key| key.0 < oid)
}

// Where the keys of oids up to this one end, in keys whose oids rise.
fn oid_end(sorted: &[(u32, i64)], oid: u32) -> usize
    ensures within { result ≤ length sorted.now }
    ensures end { IsNonDecreasingBy (λ k. k.0) sorted.now → IsOidEnd sorted.now oid result }
{
    sorted.partition_point(|key| key.0 <= oid)
}

// Where the lower keys end, in keys in order.
fn key_start(sorted: &[(u32, i64)], wanted: (u32, i64)) -> usize
    ensures { IsSorted key_cmp sorted.now → IsKeyStart sorted.now wanted result }
{
    sorted.partition_point(|key| key.cmp(&wanted).is_lt())
}

fn key_at(keys: &[(u32, i64)], at: usize) -> Option<(u32, i64)>
    ensures { result ≡ slice_get keys.now at }
{
    keys.get(at).copied()
}

fn place_at(places: &[usize], at: usize) -> Option<usize>
    ensures { result ≡ slice_get places.now at }
{
    places.get(at).copied()
}

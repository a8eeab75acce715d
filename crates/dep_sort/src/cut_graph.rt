//! The order of a graph in which no edge breaks any more, and the loop that is left in it.
ghost use Rattle.std.specs.Prelude.{◌≡◌, ℕ, ◌^◌, ◌<◌, length, All, IfOk, map, nat_eq, slice_index};
ghost use Rattle.std.specs.List.{IsDistinct};
ghost use Rattle.graph_walks.specs.Alike.{AreAlike};
ghost use Rattle.graph_walks.specs.Arcs.{AreWithin};
ghost use Rattle.dep_sort.specs.FirstOrder.{stands_at, renumbered};
ghost use Rattle.dep_sort.specs.Ordering.{final_places, told_places};

use crate::places::{first_places, id_places};
use graph_parts::Obj;
use graph_walks::{Arcs, fill_order, tell_cycle};
use std::alloc::{AllocError, Global};

/// The places of these objects in the final order: each behind those that it needs by these arcs, and filled from its end by
/// the highest in the first order. Where some objects need each other, it ends before them. The only error is that memory
/// ran out.
pub fn final_places(
    alloc: Global,
    objects: &[Obj],
    arcs: &[(usize, usize)],
) -> Result<Vec<usize>, AllocError>
    requires few { length objects.now < 2 ^ 32 }
    requires within { AreWithin (length objects.now) arcs.now }
    ensures value { IfOk result (λ places. places.items ≡ final_places (record { objects = objects.now; arcs = arcs.now })) }
    ensures within { IfOk result (λ places. All (λ place. place < length objects.now) places.items) }
    ensures distinct { IfOk result (λ places. IsDistinct nat_eq places.items) }
{
    let first = first_places(alloc, objects)?;
    let net = renumber(alloc, &first, arcs)?;
    let order = fill_order(alloc, &net)?;
    places_at(alloc, &first, &order)
}

/// The places of these objects along the loop that is told, from the least object by class and oid that lies on one back to
/// itself; empty where none is left. The only error is that memory ran out.
pub fn loop_places(
    alloc: Global,
    objects: &[Obj],
    arcs: &[(usize, usize)],
) -> Result<Vec<usize>, AllocError>
    requires few { length objects.now < 2 ^ 32 }
    requires within { AreWithin (length objects.now) arcs.now }
    ensures value { IfOk result (λ places. places.items ≡ told_places (record { objects = objects.now; arcs = arcs.now })) }
    ensures within { IfOk result (λ places. All (λ place. place < length objects.now) places.items) }
{
    let by_id = id_places(alloc, objects)?;
    let net = renumber(alloc, &by_id, arcs)?;
    let path = tell_cycle(alloc, &net)?;
    places_at(alloc, &by_id, &path)
}

// The arcs by where their ends stand among the places.
pub(crate) fn renumber(
    alloc: Global,
    places: &[usize],
    arcs: &[(usize, usize)],
) -> Result<Arcs, AllocError>
    requires few { length places.now < 2 ^ 32 }
    requires places { All (λ place. place < length places.now) places.now }
    requires within { AreWithin (length places.now) arcs.now }
    ensures count { IfOk result (λ net. net.count ≡ length places.now) }
    ensures alike { IfOk result (λ net. AreAlike (length places.now) (renumbered places.now arcs.now) net.arcs) }
{
    let ranks = ranks(alloc, places)?;
    let ends = ends_by(alloc, &ranks, arcs)?;
    Arcs::of(alloc, places.len(), ends)
}

// Where each place stands.
fn ranks(alloc: Global, places: &[usize]) -> Result<Vec<usize>, AllocError>
    requires { All (λ place. place < length places.now) places.now }
    ensures count { IfOk result (λ ranks. length ranks.items ≡ length places.now) }
    ensures each { IfOk result (λ ranks. (place : ℕ) → place < length places.now → slice_index ranks.items place ≡ stands_at places.now place) }
{
    let mut ranks = vec![in alloc; 0; places.len()]?;
    let mut at = places.len();
    while at > 0 {
        at -= 1;
        ranks[places[at]] = at;
    }
    Ok(ranks)
}

fn ends_by(
    alloc: Global,
    ranks: &[usize],
    arcs: &[(usize, usize)],
) -> Result<Vec<(usize, usize)>, AllocError>
    requires { AreWithin (length ranks.now) arcs.now }
    ensures { IfOk result (λ ends. ends.items ≡ map (λ arc. (slice_index ranks.now arc.0, slice_index ranks.now arc.1)) arcs.now) }
{
    let mut ends = Vec::new(alloc);
    for arc in arcs {
        ends.push((ranks[arc.0], ranks[arc.1]))?;
    }
    Ok(ends)
}

// The places that stand at these.
fn places_at(alloc: Global, places: &[usize], order: &[usize]) -> Result<Vec<usize>, AllocError>
    requires { All (λ at. at < length places.now) order.now }
    ensures { IfOk result (λ found. found.items ≡ map (slice_index places.now) order.now) }
{
    let mut found = Vec::new(alloc);
    for at in order {
        found.push(places[*at])?;
    }
    Ok(found)
}

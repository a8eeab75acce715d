//! The order that is filled from its end.
ghost use Rattle.std.specs.Prelude.{◌≡◌, ℕ, ◌<◌, ◌≤◌, nat_eq, length, All, IfOk, OnOk, slice_index};
ghost use Rattle.std.specs.List.{IsDistinct};
ghost use Rattle.std.specs.BinaryHeap.{IsHeap, heap_items};
ghost use Rattle.std.specs.Ordering.{nat_cmp};
ghost use Rattle.graph_walks.specs.Arcs.{AreWithin};
ghost use Rattle.graph_walks.specs.Counting.{ending, AreFree, AreReleased};
ghost use Rattle.graph_walks.specs.Filling.{order_of};

use crate::arcs::Arcs;
use std::alloc::{AllocError, Global};
use std::collections::BinaryHeap;

/// The order of all places in which each stands behind those that it needs. It is filled from its end: each place goes to
/// the highest one that no place needs which isn't placed yet. Where some places need each other, it ends before them, so
/// that it is shorter. The only error is that memory ran out.
pub fn fill_order(alloc: Global, arcs: &Arcs) -> Result<Vec<usize>, AllocError>
    ensures value { IfOk result (λ order. order.items ≡ order_of arcs.now.count arcs.now.arcs) }
    ensures within { IfOk result (λ order. All (λ place. place < arcs.now.count) order.items) }
    ensures distinct { IfOk result (λ order. IsDistinct nat_eq order.items) }
{
    let mut counts = count_ends(alloc, arcs)?;
    let mut free = free_places(alloc, &counts)?;
    let mut placed = Vec::with_capacity(alloc, arcs.count())?;
    while let Some(place) = free.pop() {
        placed.push(place)?;
        release(arcs.from(place), &mut counts, &mut free)?;
    }
    placed.reverse();
    Ok(placed)
}

// How many arcs end at each place.
fn count_ends(alloc: Global, arcs: &Arcs) -> Result<Vec<usize>, AllocError>
    ensures count { IfOk result (λ counts. length counts.items ≡ arcs.now.count) }
    ensures each { IfOk result (λ counts. (place : ℕ) → place < arcs.now.count → slice_index counts.items place ≡ ending arcs.now.arcs place) }
{
    let mut counts = vec![in alloc; 0; arcs.count()]?;
    for arc in arcs.all() {
        counts[arc.1] += 1;
    }
    Ok(counts)
}

// The places that no arc ends at.
fn free_places(alloc: Global, counts: &[usize]) -> Result<BinaryHeap<usize>, AllocError>
    ensures each { IfOk result (λ free. AreFree (λ _. 0) counts.now (heap_items free)) }
    ensures within { IfOk result (λ free. All (λ place. place < length counts.now) (heap_items free)) }
    ensures heap { IfOk result (λ free. IsHeap nat_cmp (heap_items free)) }
{
    let mut free = BinaryHeap::new(alloc);
    for (place, count) in counts.iter().enumerate() {
        if *count == 0 {
            free.push(place)?;
        }
    }
    Ok(free)
}

// Takes the arcs of a place that was placed out of the counts. What nothing waits for any more is free.
fn release(
    arcs: &[(usize, usize)],
    counts: &mut [usize],
    free: &mut BinaryHeap<usize>,
) -> Result<(), AllocError>
    requires within { All (λ arc. arc.1 < length counts.old) arcs.now }
    requires counted { (place : ℕ) → place < length counts.old → ending arcs.now place ≤ slice_index counts.old place }
    requires heap { IsHeap nat_cmp (heap_items free.old) }
    requires places { All (λ place. place < length counts.old) (heap_items free.old) }
    ensures counts { OnOk result (AreReleased arcs.now counts.old counts.new) }
    ensures free { OnOk result ((gone : ℕ → ℕ) → AreFree gone counts.old (heap_items free.old) → AreFree gone counts.new (heap_items free.new)) }
    ensures kept { OnOk result (All (λ place. place < length counts.old) (heap_items free.new)) }
    ensures order { OnOk result (IsHeap nat_cmp (heap_items free.new)) }
{
    for arc in arcs {
        let left = counts[arc.1] - 1;
        counts[arc.1] = left;
        if left == 0 {
            free.push(arc.1)?;
        }
    }
    Ok(())
}

//! The cycle that is told where places need each other.
ghost use Rattle.std.specs.Prelude.{◌≡◌, ℕ, ◌<◌, ◌&&◌, ◌++◌, ◌∷◌, [], List, Some, true, nat_eq, length, All, map, IfOk, OnOk, OnSome, ◌+◌, ◌^◌, slice_index, slice_get, option_map};
ghost use Rattle.std.specs.List.{list_any};
ghost use Rattle.graph_walks.specs.Arcs.{AreWithin, arcs_from};
ghost use Rattle.graph_walks.specs.Reaching.{reaches};
ghost use Rattle.graph_walks.specs.Telling.{first_on_cycle, told_cycle, Visits, IsRound};

use crate::arcs::Arcs;
use crate::components::mark_components;
use std::alloc::{AllocError, Global};

/// A cycle of places that need each other: it begins and ends with the lowest place on any cycle, and goes on each time to
/// the lowest place that the one before needs and from which it can come back to the start by places that it hasn't come to.
/// Empty where there is no cycle. The only error is that memory ran out.
pub fn tell_cycle(alloc: Global, arcs: &Arcs) -> Result<Vec<usize>, AllocError>
    ensures value { IfOk result (λ path. path.items ≡ told_cycle arcs.now.count arcs.now.arcs) }
    ensures back { IfOk result (λ path. IsRound path.items) }
    ensures within { IfOk result (λ path. All (λ place. place < arcs.now.count) path.items) }
{
    let marks = mark_components(alloc, arcs)?;
    let Some(start) = start_of(arcs, &marks) else {
        return Ok(Vec::new(alloc));
    };
    walk_back(alloc, arcs, start)
}

// The lowest place at which an arc of a cycle begins.
fn start_of(arcs: &Arcs, marks: &[usize]) -> Option<usize>
    requires count { length marks.now ≡ arcs.now.count }
    requires alike { (a b : ℕ) → a < arcs.now.count → b < arcs.now.count → nat_eq (slice_index marks.now a) (slice_index marks.now b) ≡ (reaches arcs.now.arcs a b && reaches arcs.now.arcs b a) }
    ensures { result ≡ first_on_cycle arcs.now.count arcs.now.arcs }
{
    for place in 0..arcs.count() {
        if has_mate(arcs.from(place), marks) {
            return Some(place);
        }
    }
    None
}

// Whether one of the arcs begins and ends in one component.
fn has_mate(arcs: &[(usize, usize)], marks: &[usize]) -> bool
    requires { AreWithin (length marks.now) arcs.now }
    ensures { result ≡ list_any (λ arc. nat_eq (slice_index marks.now arc.0) (slice_index marks.now arc.1)) arcs.now }
{
    for arc in arcs {
        if marks[arc.0] == marks[arc.1] {
            return true;
        }
    }
    false
}

// Goes along the arcs until one leads back to the start. Where no arc of the last place is left to be tried, it leads nowhere
// but to places that were tried as well.
fn walk_back(alloc: Global, arcs: &Arcs, start: usize) -> Result<Vec<usize>, AllocError>
    requires { first_on_cycle arcs.now.count arcs.now.arcs ≡ Some start }
    ensures value { IfOk result (λ path. path.items ≡ told_cycle arcs.now.count arcs.now.arcs) }
    ensures back { IfOk result (λ path. IsRound path.items) }
{
    let mut visited = vec![in alloc; false; arcs.count()]?;
    let mut path = Vec::new(alloc);
    visited[start] = true;
    path.push((start, 0))?;
    while let Some(step) = path.pop() {
        let Some(next) = needed(arcs, step.0, step.1) else {
            continue;
        };
        path.push((step.0, step.1 + 1))?;
        if next == start {
            return cycle_of(alloc, &path, start);
        }
        visit(next, &mut visited, &mut path)?;
    }
    Ok(Vec::new(alloc))
}

// What a place needs, where so much of it was tried.
fn needed(arcs: &Arcs, place: usize, tried: usize) -> Option<usize>
    requires { place < arcs.now.count }
    ensures value { result ≡ option_map (λ arc. arc.1) (slice_get (arcs_from place arcs.now.arcs) tried) }
    ensures small { OnSome result (tried + 1 < 2 ^ 64) }
{
    let arc = arcs.from(place).get(tried)?;
    Some(arc.1)
}

// Goes on to a place that wasn't visited.
fn visit(
    place: usize,
    visited: &mut [bool],
    path: &mut Vec<(usize, usize)>,
) -> Result<(), AllocError>
    requires { place < length visited.old }
    ensures { OnOk result (Visits place visited.old path.old.items visited.new path.new.items) }
{
    if !visited[place] {
        path.push((place, 0))?;
        visited[place] = true;
    }
    Ok(())
}

// The places of the path, and the start once more.
fn cycle_of(alloc: Global, path: &[(usize, usize)], start: usize) -> Result<Vec<usize>, AllocError>
    ensures { IfOk result (λ cycle. cycle.items ≡ map (λ step. step.0) path.now ++ start ∷ []) }
{
    let mut cycle = Vec::new(alloc);
    for step in path {
        cycle.push(step.0)?;
    }
    cycle.push(start)?;
    Ok(cycle)
}

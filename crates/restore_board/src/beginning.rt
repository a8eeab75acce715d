//! What a board begins with.
ghost use Rattle.std.specs.Prelude.{◌≡◌, ◌+◌, ◌≤◌, [], length, map, replicate, vec_capacity, IfOk};
ghost use Rattle.restore_core.specs.declared.phase.Phase.TheVariants as phases;
ghost use Rattle.restore_queue.specs.Ready.{AllWaited};
ghost use Rattle.restore_turns.specs.Measures.{most_events};

use plan_waits::all_waits;
use restore_core::Event;
use restore_plan::{EntryStatus, Planned};
use restore_queue::Queue;
use std::alloc::{AllocError, Global};
use std::collections::BTreeSet;

// The members of a set.
fn members(alloc: Global, set: &BTreeSet<usize>) -> Result<Vec<usize>, AllocError>
    ensures { IfOk result (λ v. v.items ≡ set.now.keys) }
{
    let mut places = Vec::new(alloc);
    for place in set.iter() {
        places.push(*place)?;
    }
    Ok(places)
}

// The members of each of these sets.
fn members_of_all(alloc: Global, sets: &[BTreeSet<usize>]) -> Result<Vec<Vec<usize>>, AllocError>
    ensures { IfOk result (λ lists. map (λ v. v.items) lists.items ≡ map (λ set. set.keys) sets.now) }
{
    let mut lists = Vec::new(alloc);
    for set in sets {
        lists.push(members(alloc, set)?)?;
    }
    Ok(lists)
}

// The places of those that each entry waits for.
fn places_of(alloc: Global, plan: &[Planned]) -> Result<Vec<Vec<usize>>, AllocError>
    ensures many { IfOk result (λ waits. length waits.items ≡ length plan.now) }
    ensures waited { IfOk result (λ waits. AllWaited plan.now waits.items) }
{
    let sets = all_waits(alloc, plan)?;
    members_of_all(alloc, sets.as_slice())
}

/// A queue of the entries of a plan, none of which has begun.
pub(crate) fn queue_of(alloc: Global, plan: &[Planned]) -> Result<Queue<'_>, AllocError>
    ensures { IfOk result (λ queue. queue ≡ record { plan = plan.now; phases = replicate (length plan.now) phases.Waiting }) }
{
    let waits = places_of(alloc, plan)?;
    Queue::new(alloc, plan, waits)
}

// So many events and two for an entry, and one for each of its statements.
fn with_entry(events: usize, steps: usize) -> Result<usize, AllocError>
    ensures { IfOk result (λ n. n ≡ steps + 2 + events) }
{
    let own = steps.checked_add(2).ok_or(AllocError)?;
    own.checked_add(events).ok_or(AllocError)
}

// How many events there are at most.
fn most_events(plan: &[Planned]) -> Result<usize, AllocError>
    ensures { IfOk result (λ n. n ≡ most_events plan.now) }
{
    let mut events = 0;
    for planned in plan {
        events = with_entry(events, planned.steps.as_slice().len())?;
    }
    Ok(events)
}

/// An empty history, with room for all events that may come.
pub(crate) fn history_of(alloc: Global, plan: &[Planned]) -> Result<Vec<Event>, AllocError>
    ensures none { IfOk result (λ history. history.items ≡ []) }
    ensures room { IfOk result (λ history. most_events plan.now ≤ vec_capacity history) }
{
    let events = most_events(plan)?;
    Vec::with_capacity(alloc, events)
}

/// No statuses, with room for so many.
pub(crate) fn no_statuses(alloc: Global, many: usize) -> Result<Vec<EntryStatus>, AllocError>
    ensures none { IfOk result (λ statuses. statuses.items ≡ []) }
    ensures room { IfOk result (λ statuses. many ≤ vec_capacity statuses) }
{
    Vec::with_capacity(alloc, many)
}

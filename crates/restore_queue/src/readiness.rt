//! Whether an entry was refused or skipped, and what skips it.
ghost use Rattle.std.specs.Prelude.{◌≡◌, ◌==◌, false, None};
ghost use Rattle.std.specs.List.{list_any, slice_get};
ghost use Rattle.std.specs.Option.{option_map_or};
ghost use Rattle.restore_queue.specs.Ready.{blocking_in, blocks_in, ended_in, first_in, is_blocking};

use restore_core::Phase;
use restore_plan::Planned;

/// Whether the entry in this place has ended; true where there is none.
pub(crate) fn has_ended(phases: &[Phase], i: usize) -> bool
    ensures { result ≡ ended_in phases.now i }
{
    match phases.get(i) {
        Some(phase) => phase.has_ended(),
        None => true,
    }
}

// Whether an entry was refused or skipped.
fn is_blocking(phase: &Phase) -> bool
    ensures { result ≡ is_blocking phase.now }
{
    match phase {
        Phase::Ended(status) => status.blocks(),
        Phase::Waiting | Phase::Running { .. } => false,
    }
}

fn blocking_in(phases: &[Phase], i: usize) -> bool
    ensures { result ≡ blocking_in phases.now i }
{
    match phases.get(i) {
        Some(phase) => is_blocking(phase),
        None => false,
    }
}

fn has_id(plan: &[Planned], id: u32, i: usize) -> bool
    ensures { result ≡ option_map_or (λ p. p.id == id) (slice_get plan.now i) false }
{
    match plan.get(i) {
        Some(planned) => planned.id == id,
        None => false,
    }
}

fn blocks_in(plan: &[Planned], phases: &[Phase], id: u32, i: usize) -> bool
    ensures { result ≡ blocks_in plan.now phases.now id i }
{
    has_id(plan, id, i) && blocking_in(phases, i)
}

fn is_blocked(plan: &[Planned], phases: &[Phase], places: &[usize], id: u32) -> bool
    ensures { result ≡ list_any (blocks_in plan.now phases.now id) places.now }
{
    places.iter().any(|i| blocks_in(plan, phases, id, *i))
}

/// The first of these dump ids that one of the entries in these places has which were refused or skipped.
pub(crate) fn first_in(
    plan: &[Planned],
    phases: &[Phase],
    places: &[usize],
    ids: &[u32],
) -> Option<u32>
    ensures { result ≡ first_in plan.now phases.now places.now ids.now }
{
    ids.iter()
        .copied()
        .find(|id| is_blocked(plan, phases, places, *id))
}

fn blocker_in(plan: &[Planned], phases: &[Phase], places: &[usize], entry: usize) -> Option<u32>
    ensures { result ≡ option_map_or (λ p. first_in plan.now phases.now places.now p.deps) (slice_get plan.now entry) None }
{
    match plan.get(entry) {
        Some(planned) => first_in(plan, phases, places, planned.deps.as_slice()),
        None => None,
    }
}

/// The first dependency of an entry that was refused or skipped.
pub(crate) fn blocker_at(
    plan: &[Planned],
    phases: &[Phase],
    waits: &[Vec<usize>],
    entry: usize,
) -> Option<u32>
    ensures { result ≡ option_map_or (λ v. option_map_or (λ p. first_in plan.now phases.now v.items p.deps) (slice_get plan.now entry) None) (slice_get waits.now entry) None }
{
    match waits.get(entry) {
        Some(places) => blocker_in(plan, phases, places.as_slice(), entry),
        None => None,
    }
}

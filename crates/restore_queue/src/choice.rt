//! What may become of an entry.
ghost use Rattle.std.specs.Prelude.{◌≡◌, false, List, Some};
ghost use Rattle.std.specs.List.{list_any, slice_get};
ghost use Rattle.restore_queue.specs.Choosing.{choice_at, choice_in, choice_of, chosen, goes, skips};
ghost use Rattle.restore_queue.specs.Ready.{first_in, is_ready_at};
ghost use Rattle.restore_queue.specs.Workers.{clash_in};

use crate::readiness::first_in;
use crate::running::any_clashes;
use crate::waiting::is_ready;
use restore_core::Phase;
use restore_plan::Planned;

/// What may become of an entry now.
#[derive(Clone, Copy)]
pub(crate) enum Choice {
    /// It may be skipped.
    Skip,
    /// It may be started.
    Run,
    /// Neither.
    Stay,
}

/// Whether it is one of the two.
pub(crate) fn goes(choice: Choice) -> bool
    ensures { result ≡ goes choice }
{
    match choice {
        Choice::Skip | Choice::Run => true,
        Choice::Stay => false,
    }
}

/// Whether it is to be skipped.
pub(crate) fn skips(choice: Choice) -> bool
    ensures { result ≡ skips choice }
{
    match choice {
        Choice::Skip => true,
        Choice::Run | Choice::Stay => false,
    }
}

// What may become of an entry whose places have all ended.
fn chosen(
    plan: &[Planned],
    phases: &[Phase],
    running: &[Option<usize>],
    places: &[usize],
    planned: &Planned,
) -> Choice
    ensures { result ≡ chosen (first_in plan.now phases.now places.now planned.now.deps) (list_any (clash_in plan.now planned.now) running.now) }
{
    match first_in(plan, phases, places, planned.deps.as_slice()) {
        Some(_) => Choice::Skip,
        None => {
            if any_clashes(plan, running, planned) {
                Choice::Stay
            } else {
                Choice::Run
            }
        }
    }
}

fn choice_of(
    plan: &[Planned],
    phases: &[Phase],
    running: &[Option<usize>],
    places: &[usize],
    i: usize,
) -> Choice
    ensures { result ≡ choice_of plan.now phases.now running.now places.now (slice_get plan.now i) }
{
    match plan.get(i) {
        Some(planned) => chosen(plan, phases, running, places, planned),
        None => Choice::Stay,
    }
}

fn choice_in(
    plan: &[Planned],
    phases: &[Phase],
    running: &[Option<usize>],
    waits: &[Vec<usize>],
    i: usize,
) -> Choice
    ensures { result ≡ choice_in plan.now phases.now running.now (slice_get waits.now i) (slice_get plan.now i) }
{
    match waits.get(i) {
        Some(places) => choice_of(plan, phases, running, places.as_slice(), i),
        None => Choice::Stay,
    }
}

/// What may become of an entry now.
pub(crate) fn choice_at(
    plan: &[Planned],
    phases: &[Phase],
    waits: &[Vec<usize>],
    met: &[usize],
    running: &[Option<usize>],
    i: usize,
) -> Choice
    ensures { result ≡ choice_at plan.now phases.now waits.now met.now running.now i }
{
    if is_ready(phases, waits, met, i) {
        choice_in(plan, phases, running, waits, i)
    } else {
        Choice::Stay
    }
}

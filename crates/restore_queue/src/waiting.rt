//! How many of the entries that an entry waits for have been met.
ghost use Rattle.std.specs.Prelude.{◌≡◌, ◌<◌, ◌≤◌, ◌==◌, ℕ, length, true, false};
ghost use Rattle.std.specs.List.{slice_get};
ghost use Rattle.std.specs.Option.{option_map_or};
ghost use Rattle.restore_queue.specs.Indexed.{AreMarked, IsMet, block};
ghost use Rattle.restore_queue.specs.Ready.{ended_in, has_met, is_ready_at, waits_in};

use crate::readiness::has_ended;
use restore_core::Phase;

/// How many entries a block has, which is marked while one of them is ready.
pub(crate) const BLOCK: usize = 512;

/// Goes on over places whose entries have ended, from the m-th of them.
pub(crate) fn advance(phases: &[Phase], places: &[usize], from: usize) -> usize
    requires within { from ≤ length places.now }
    requires below { (k x : ℕ) → k < from → slice_get places.now k ≡ Some x → ended_in phases.now x ≡ true }
    ensures { IsMet phases.now places.now result }
{
    let mut m = from;
    'places: while m < places.len() {
        if !has_ended(phases, places[m]) {
            return m;
        }
        m += 1;
    }
    m
}

fn waits_in(phases: &[Phase], i: usize) -> bool
    ensures { result ≡ waits_in phases.now i }
{
    match phases.get(i) {
        Some(phase) => phase.is_waiting(),
        None => false,
    }
}

fn are_all(places: &[usize], met: &[usize], i: usize) -> bool
    ensures { result ≡ option_map_or (λ n. n == length places.now) (slice_get met.now i) false }
{
    match met.get(i) {
        Some(n) => *n == places.len(),
        None => false,
    }
}

fn has_met(waits: &[Vec<usize>], met: &[usize], i: usize) -> bool
    ensures { result ≡ has_met (slice_get waits.now i) (slice_get met.now i) }
{
    match waits.get(i) {
        Some(places) => are_all(places.as_slice(), met, i),
        None => false,
    }
}

/// Whether an entry waits, and all of those that it waits for have been met.
pub(crate) fn is_ready(phases: &[Phase], waits: &[Vec<usize>], met: &[usize], i: usize) -> bool
    ensures { result ≡ is_ready_at phases.now waits.now met.now i }
{
    waits_in(phases, i) && has_met(waits, met, i)
}

// Whether one of these entries is ready.
fn any_ready(phases: &[Phase], waits: &[Vec<usize>], met: &[usize], from: usize, to: usize) -> bool
    ensures { (k : ℕ) → from ≤ k → k < to → is_ready_at phases.now waits.now met.now k ≡ true → result ≡ true }
{
    for k in from..to {
        if is_ready(phases, waits, met, k) {
            return true;
        }
    }
    false
}

/// Marks the block of an entry, or takes its mark away, by whether one of its entries is ready.
pub fn mark(phases: &[Phase], waits: &[Vec<usize>], met: &[usize], marks: &mut [bool], i: usize)
    requires { AreMarked phases.now waits.now met.now marks.old }
    ensures { AreMarked phases.now waits.now met.now marks.new }
{
    let at = i / BLOCK;
    if at < marks.len() {
        let from = at * BLOCK;
        let to = from.saturating_add(BLOCK).min(phases.len());
        marks[at] = any_ready(phases, waits, met, from, to);
    }
}

/// The same for the marks of a queue.
pub(crate) fn mark_anew(
    phases: &[Phase],
    waits: &[Vec<usize>],
    met: &[usize],
    marks: &mut Vec<bool>,
    i: usize,
)
    requires { AreMarked phases.now waits.now met.now marks.old.items }
    ensures marked { AreMarked phases.now waits.now met.now marks.new.items }
    ensures len { length marks.new.items ≡ length marks.old.items }
{
    mark(phases, waits, met, marks, i);
}

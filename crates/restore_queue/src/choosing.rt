//! What a worker takes next.
ghost use Rattle.std.specs.Prelude.{◌≡◌, ◌<◌, ◌≤◌, ◌/◌, ℕ, length};
ghost use Rattle.restore_queue.specs.Choosing.{first_place, is_marked, next_turn, turn_of};
ghost use Rattle.restore_core.specs.Machine.{State};
ghost use Rattle.restore_queue.specs.Indexed.{AreMarked, Kept, block};
ghost use Rattle.restore_queue.specs.Lined.{AreGoing};
ghost use Rattle.restore_queue.specs.Workers.{entry_in};
ghost use Rattle.restore_turns.specs.Turns.{turn};

use crate::choice::{choice_at, goes, skips};
use crate::running::{any_runs, entry_in};
use crate::waiting::BLOCK;
use restore_core::Phase;
use restore_plan::Planned;
use restore_turns::Turn;

// Whether the block of an entry is marked.
fn is_marked(marks: &[bool], i: usize) -> bool
    ensures { result ≡ is_marked marks.now i }
{
    match marks.get(i / BLOCK) {
        Some(mark) => *mark,
        None => false,
    }
}

// The place behind the block of an entry, of so many entries.
fn block_end(i: usize, many: usize) -> usize
    requires { i < many }
    ensures above { i < result }
    ensures within { result ≤ many }
    ensures same { (k : ℕ) → i ≤ k → k < result → k / block ≡ i / block }
{
    i.saturating_add(BLOCK - i % BLOCK).min(many)
}

// The first entry that may be skipped or started.
fn first_place(
    plan: &[Planned],
    phases: &[Phase],
    waits: &[Vec<usize>],
    met: &[usize],
    marks: &[bool],
    running: &[Option<usize>],
) -> Option<usize>
    requires { AreMarked phases.now waits.now met.now marks.now }
    ensures { result ≡ first_place plan.now phases.now waits.now met.now running.now }
{
    let mut i = 0;
    'places: while i < plan.len() {
        if is_marked(marks, i) {
            if goes(choice_at(plan, phases, waits, met, running, i)) {
                return Some(i);
            }
            i += 1;
        } else {
            i = block_end(i, plan.len());
        }
    }
    None
}

// What a worker that runs no entry takes next.
fn next_turn(
    plan: &[Planned],
    phases: &[Phase],
    waits: &[Vec<usize>],
    met: &[usize],
    marks: &[bool],
    running: &[Option<usize>],
) -> Turn
    requires { AreMarked phases.now waits.now met.now marks.now }
    ensures { result ≡ next_turn plan.now phases.now waits.now met.now running.now }
{
    match first_place(plan, phases, waits, met, marks, running) {
        Some(entry) => {
            if skips(choice_at(plan, phases, waits, met, running, entry)) {
                Turn::Skip { entry }
            } else {
                Turn::Run { entry }
            }
        }
        None => {
            if any_runs(running) {
                Turn::NotYet
            } else {
                Turn::Finished
            }
        }
    }
}

fn turn_in(
    plan: &[Planned],
    phases: &[Phase],
    waits: &[Vec<usize>],
    met: &[usize],
    marks: &[bool],
    running: &[Option<usize>],
    worker: u32,
) -> Turn
    requires { AreMarked phases.now waits.now met.now marks.now }
    ensures { result ≡ turn_of (next_turn plan.now phases.now waits.now met.now running.now) (entry_in running.now worker) }
{
    match entry_in(running, worker) {
        Some(entry) => Turn::Run { entry },
        None => next_turn(plan, phases, waits, met, marks, running),
    }
}

/// What a worker does next, in each state whose entries are those of a plan, in these phases. `waits` are the places that
/// each entry waits for, `met` says how many of these, one after another, have ended, `marks` has a mark for each block of
/// entries of which one is ready, and `running` the place of the entry that each of 64 workers runs. Blocks without a mark
/// are passed over. It takes no memory.
pub fn turn_of(
    plan: &[Planned],
    phases: &[Phase],
    waits: &[Vec<usize>],
    met: &[usize],
    marks: &[bool],
    running: &[Option<usize>],
    worker: u32,
) -> Turn
    requires worker { worker < 64 }
    requires kept { Kept plan.now phases.now waits.now met.now marks.now running.now }
    ensures { (s : State) → AreGoing plan.now phases.now s.entries → result ≡ turn worker s }
{
    turn_in(plan, phases, waits, met, marks, running, worker)
}

//! A queue of the entries of a restore.
ghost use Rattle.std.specs.Prelude.{◌≡◌, ◌<◌, ◌≤◌, ℕ, List, true, false, length, take, replicate, slice_set, is_none, IfOk, Option, Some, None};
ghost use Rattle.std.specs.List.{list_any, slice_get};
ghost use Rattle.restore_core.specs.Machine.{Going, State, blocked_by, is_free, place_of};
ghost use Rattle.restore_core.specs.Phases.{has_ended, is_run_by, is_running};
ghost use Rattle.restore_core.specs.declared.phase.Phase.TheVariants as phases;
ghost use Rattle.restore_plan.specs.declared.status.EntryStatus.TheVariants as statuses;
ghost use Rattle.restore_turns.specs.Turns.{turn};
ghost use Rattle.restore_queue.specs.Lined.{AreGoing};
ghost use Rattle.restore_queue.specs.Nexts.{IsNext};
ghost use Rattle.restore_queue.specs.Ready.{AllWaited};

use crate::beginning::{all_waiting, mark_all, repeated};
use crate::behind::behind_all;
use crate::choosing::turn_of;
use crate::meeting::meet_behind;
use crate::readiness::blocker_at;
use crate::running::{WORKERS, entry_in, first_worker};
use crate::setting::{set_phase, set_running};
use crate::waiting::{BLOCK, mark_anew};
use restore_core::Phase;
use restore_plan::{EntryStatus, Planned};
use restore_turns::Turn;
use std::alloc::{AllocError, Global};
use std::marker::Model;

/// The entries of a plan, and where each of them is in a restore. What a worker may take next is found without going over
/// all entries that wait: each keeps how many of those that it waits for have ended. A contract sees the plan and where its
/// entries are.
#[derive(Drop)]
pub struct Queue<'p> {
    plan: &'p [Planned],
    phases: Vec<Phase>,
    waits: Vec<Vec<usize>>,
    behind: Vec<Vec<usize>>,
    met: Vec<usize>,
    marks: Vec<bool>,
    running: Vec<Option<usize>>,
}

impl<'p> Model for Queue<'p> {
    ghost use Rattle.restore_queue.specs.Queues.{Indexed, Lined};

    ghost Value = { Lined };

    ghost view = { λ q. record { plan = q.plan.now; phases = q.phases.items } };

    ghost invariant = { λ q. Indexed q.plan.now q.phases.items q.waits.items q.behind.items q.met.items q.marks.items q.running.items };
}

impl<'p> Queue<'p> {
    /// A queue of the entries of a plan, none of which has begun. For each entry the places, from 0, are given of those
    /// earlier ones that have to end before it starts. The error is that memory ran out.
    pub fn new(
        alloc: Global,
        plan: &'p [Planned],
        waits: Vec<Vec<usize>>,
    ) -> Result<Queue<'p>, AllocError>
        requires many { length waits.items ≡ length plan.now }
        requires waited { AllWaited plan.now waits.items }
        ensures { IfOk result (λ queue. queue ≡ record { plan = plan.now; phases = replicate (length plan.now) phases.Waiting }) }
    {
        let behind = behind_all(alloc, waits.as_slice())?;
        let phases = all_waiting(alloc, plan.len())?;
        let met = repeated(alloc, 0, plan.len())?;
        let running = repeated(alloc, None, WORKERS)?;
        let mut marks = repeated(alloc, true, plan.len() / BLOCK + 1)?;
        mark_all(&phases, &waits, &met, &mut marks);
        Ok(Queue {
            plan,
            phases,
            waits,
            behind,
            met,
            marks,
            running,
        })
    }

    /// The plan.
    pub fn plan(&self) -> &'p [Planned]
        ensures { result.now ≡ self.now.plan }
    {
        self.plan
    }

    /// Where the entries are, in the order of the plan.
    pub fn phases(&self) -> &[Phase]
        ensures { result.now ≡ self.now.phases }
    {
        self.phases.as_slice()
    }

    /// The place of the entry that a worker runs, or `None` where it runs none. It takes no memory.
    pub fn entry_of(&self, worker: u32) -> Option<usize>
        ensures free { (entries : List Going) → AreGoing self.now.plan self.now.phases entries → is_free worker entries ≡ is_none result }
        ensures place { (entries : List Going) (i : ℕ) → AreGoing self.now.plan self.now.phases entries → result ≡ Some i → place_of worker entries ≡ i }
    {
        entry_in(self.running.as_slice(), worker)
    }

    /// The first worker that runs an entry, or `None` where none does. It takes no memory.
    pub fn first_worker(&self) -> Option<u32>
        ensures some { (entries : List Going) (worker : ℕ) → AreGoing self.now.plan self.now.phases entries → result ≡ Some worker → (worker < 64) × (is_free worker entries ≡ false) }
        ensures first { (entries : List Going) (worker k : ℕ) → AreGoing self.now.plan self.now.phases entries → result ≡ Some worker → k < worker → is_free k entries ≡ true }
        ensures none { (entries : List Going) → AreGoing self.now.plan self.now.phases entries → result ≡ None → list_any (λ x. is_running x.phase) entries ≡ false }
    {
        first_worker(self.running.as_slice())
    }

    /// What a worker does next, of 64 at most. It takes no memory.
    pub fn turn(&self, worker: u32) -> Turn
        requires { worker < 64 }
        ensures { (s : State) → AreGoing self.now.plan self.now.phases s.entries → result ≡ turn worker s }
    {
        turn_of(
            self.plan,
            self.phases.as_slice(),
            self.waits.as_slice(),
            self.met.as_slice(),
            self.marks.as_slice(),
            self.running.as_slice(),
            worker,
        )
    }

    /// The first dependency of an entry that was refused or skipped: its dump id. It is `None` where no dependency was, and
    /// where there is no such entry. It takes no memory.
    pub fn blocker(&self, entry: usize) -> Option<u32>
        ensures past { length self.now.plan ≤ entry → result ≡ None }
        ensures there { (entries : List Going) (x : Going) → AreGoing self.now.plan self.now.phases entries → slice_get entries entry ≡ Some x → result ≡ blocked_by (take entry entries) x }
    {
        blocker_at(
            self.plan,
            self.phases.as_slice(),
            self.waits.as_slice(),
            entry,
        )
    }

    /// A worker that runs no entry starts one that waits.
    pub fn start(&mut self, worker: u32, entry: usize)
        requires worker { worker < 64 }
        requires free { list_any (is_run_by worker) self.old.phases ≡ false }
        requires waits { slice_get self.old.phases entry ≡ Some phases.Waiting }
        ensures { self.new ≡ record { plan = self.old.plan; phases = slice_set self.old.phases entry (phases.Running worker 0) } }
    {
        set_phase(&mut self.phases, entry, Phase::Running { worker, run: 0 });
        set_running(&mut self.running, worker, Some(entry));
        mark_anew(&self.phases, &self.waits, &self.met, &mut self.marks, entry);
    }

    /// An entry that waits is skipped, by the dump id of a dependency.
    pub fn skip(&mut self, entry: usize, by: u32)
        requires { slice_get self.old.phases entry ≡ Some phases.Waiting }
        ensures { self.new ≡ record { plan = self.old.plan; phases = slice_set self.old.phases entry (phases.Ended (statuses.Skipped by)) } }
    {
        set_phase(
            &mut self.phases,
            entry,
            Phase::Ended(EntryStatus::Skipped { by }),
        );
        meet_behind(
            &self.phases,
            &self.waits,
            &self.behind,
            &mut self.met,
            &mut self.marks,
            entry,
        );
        mark_anew(&self.phases, &self.waits, &self.met, &mut self.marks, entry);
    }

    /// The entry that a worker runs goes on, or ends.
    pub fn step(&mut self, worker: u32, entry: usize, phase: Phase)
        requires runs { (run : ℕ) × (slice_get self.old.phases entry ≡ Some (phases.Running worker run)) }
        requires next { IsNext worker phase }
        ensures { self.new ≡ record { plan = self.old.plan; phases = slice_set self.old.phases entry phase } }
    {
        if phase.has_ended() {
            self.end(worker, entry, phase);
        } else {
            set_phase(&mut self.phases, entry, phase);
        }
    }

    // The entry that a worker runs ends.
    fn end(&mut self, worker: u32, entry: usize, phase: Phase)
        requires runs { (run : ℕ) × (slice_get self.old.phases entry ≡ Some (phases.Running worker run)) }
        requires ended { has_ended phase ≡ true }
        ensures { self.new ≡ record { plan = self.old.plan; phases = slice_set self.old.phases entry phase } }
    {
        set_phase(&mut self.phases, entry, phase);
        set_running(&mut self.running, worker, None);
        meet_behind(
            &self.phases,
            &self.waits,
            &self.behind,
            &mut self.met,
            &mut self.marks,
            entry,
        );
    }

    /// Where the entries were when it ends, in the order of the plan.
    pub fn into_phases(self) -> Vec<Phase>
        ensures { result.items ≡ self.entry.phases }
    {
        self.phases
    }
}

//! A restore that workers carry out.
ghost use Rattle.std.specs.Prelude.{◌≡◌, ◌<◌, ◌↔◌, ℕ, false, true, take, List, Some, IfOk, IsTrue, OnErr, OnOk};
ghost use Rattle.std.specs.Bool.{OnFalse, OnTrue};
ghost use Rattle.std.specs.List.{list_any, slice_get};
ghost use Rattle.restore_core.specs.Machine.{Going, all_ended, blocked_by, enabled, is_free, place_of, result_of};
ghost use Rattle.restore_core.specs.Phases.{is_running};
ghost use Rattle.restore_core.specs.declared.event.Event.TheVariants as event;
ghost use Rattle.restore_plan.specs.declared.entry.Entry.{Entry as TheEntry};
ghost use Rattle.restore_plan.specs.Order.{plan as planned};
ghost use Rattle.restore_plan.specs.Serial.{serial};
ghost use Rattle.restore_turns.specs.Measures.{left};
ghost use Rattle.restore_turns.specs.Turns.{event_of, turn};
ghost use Rattle.restore_board.specs.Answers.{Steps, answer_at};
ghost use Rattle.restore_board.specs.Standing.{HasLegalHistory, IsLater, begun, state, with_event};

use crate::answer::StepAnswer;
use crate::beginning::{history_of, no_statuses, queue_of};
use crate::ending::statuses_of;
use crate::notes::Notes;
use crate::restored::Restored;
use crate::same::same_plans;
use crate::stepping::{go_on, planned_at, run_at};
use cat_engine::{Engine, Prepared};
use copy_text::Name;
use eng_map::NamedMap;
use restore_core::{Event, any_schedule_is_serial};
use restore_plan::{EntryStatus, Planned};
use restore_queue::Queue;
use restore_turns::Turn;
use same_maps::same_maps;
use std::alloc::{AllocError, Global};
use std::marker::Model;

/// A restore that workers carry out by turns: each is told which entry it runs, and runs its statements one by one. A
/// contract sees what it was begun with and the events that have happened since; where it stands is the state of the machine
/// to which these lead from the opening.
#[derive(Drop)]
pub struct Board<'p> {
    alloc: Global,
    opening: &'p NamedMap,
    boot: &'p Name,
    engine: Engine,
    queue: Queue<'p>,
    notes: Notes,
    history: Vec<Event>,
    statuses: Vec<EntryStatus>,
}

impl<'p> Model for Board<'p> {
    ghost use Rattle.std.specs.Prelude.{vec_capacity};
    ghost use Rattle.std.specs.Coded.{codes};
    ghost use Rattle.cat_engine.specs.Held.{named_code};
    ghost use Rattle.restore_board.specs.Kept.{Kept};
    ghost use Rattle.restore_board.specs.Standing.{Standing};

    ghost Value = { Standing };

    ghost coded = { Prim.hlevel (codes, named_code) };

    ghost view = { λ b. record { opening = b.opening.now; boot = b.boot.now; plan = b.queue.plan; history = b.history.items } };

    ghost invariant = { λ b. Kept (record { opening = b.opening.now; boot = b.boot.now; plan = b.queue.plan; history = b.history.items }) b.engine.named b.engine.boot b.queue.phases b.notes (vec_capacity b.history) b.statuses.items (vec_capacity b.statuses) };
}

impl<'p> Board<'p> {
    /// A restore of which nothing has happened. `opening` is the catalogue before it and `boot` the role that owns what is
    /// created; `engine` is to hold the same. Room for the whole history is taken. The error is that memory ran out.
    pub fn begin(
        alloc: Global,
        opening: &'p NamedMap,
        boot: &'p Name,
        engine: Engine,
        plan: &'p [Planned],
    ) -> Result<Board<'p>, AllocError>
        requires { engine ≡ record { named = opening.now; boot = boot.now } }
        ensures { IfOk result (λ board. board ≡ begun opening.now boot.now plan.now) }
    {
        let queue = queue_of(alloc, plan)?;
        let notes = Notes::new(alloc, plan.len())?;
        let history = history_of(alloc, plan)?;
        let statuses = no_statuses(alloc, plan.len())?;
        Ok(Board {
            alloc,
            opening,
            boot,
            engine,
            queue,
            notes,
            history,
            statuses,
        })
    }

    /// What has happened, which is a legal history of the machine.
    pub fn history(&self) -> &[Event]
        ensures events { result.now ≡ self.now.history }
        ensures legal { HasLegalHistory self.now }
    {
        self.history.as_slice()
    }

    /// Whether it was begun with this catalogue, this role and this plan. It takes no memory.
    pub fn is_of(&self, opening: &NamedMap, boot: &Name, plan: &[Planned]) -> bool
        ensures { IsTrue result ↔ ((self.now.opening ≡ opening.now) × (self.now.boot ≡ boot.now) × (self.now.plan ≡ plan.now)) }
    {
        self.boot == boot && same_maps(self.opening, opening) && same_plans(self.queue.plan(), plan)
    }

    // A worker that runs no entry starts this one.
    fn begin_entry(&mut self, worker: u32, entry: usize)
        requires { enabled (state self.old) (event.Start worker entry) ≡ true }
        ensures { self.new ≡ with_event (Some (event.Start worker entry)) self.old }
    {
        self.queue.start(worker, entry);
        self.history.push_reserved(Event::Start { worker, entry });
    }

    // An entry is skipped, by the dump id of this dependency.
    fn skip_by(&mut self, entry: usize, by: u32)
        requires may { enabled (state self.old) (event.Skip entry) ≡ true }
        requires blocked { (x : Going) → slice_get (state self.old).entries entry ≡ Some x → blocked_by (take entry (state self.old).entries) x ≡ Some by }
        ensures { self.new ≡ with_event (Some (event.Skip entry)) self.old }
    {
        self.queue.skip(entry, by);
        self.history.push_reserved(Event::Skip { entry });
    }

    // An entry is skipped.
    fn skip_entry(&mut self, entry: usize)
        requires { enabled (state self.old) (event.Skip entry) ≡ true }
        ensures { self.new ≡ with_event (Some (event.Skip entry)) self.old }
    {
        match self.queue.blocker(entry) {
            Some(by) => self.skip_by(entry, by),
            None => {}
        }
    }

    // The event with which this turn begins, of a worker that runs no entry.
    fn begin_turn(&mut self, worker: u32, taken: Turn)
        requires free { is_free worker (state self.old).entries ≡ true }
        requires turn { taken ≡ turn worker (state self.old) }
        ensures { self.new ≡ with_event (event_of worker (state self.old) taken) self.old }
    {
        match taken {
            Turn::Run { entry } => self.begin_entry(worker, entry),
            Turn::Skip { entry } => self.skip_entry(entry),
            Turn::NotYet | Turn::Finished => {}
        }
    }

    // The turn of a worker that runs no entry.
    fn take(&mut self, worker: u32) -> Turn
        requires small { worker < 64 }
        requires free { is_free worker (state self.old).entries ≡ true }
        ensures turn { result ≡ turn worker (state self.old) }
        ensures event { self.new ≡ with_event (event_of worker (state self.old) (turn worker (state self.old))) self.old }
    {
        let taken = self.queue.turn(worker);
        self.begin_turn(worker, taken);
        taken
    }

    /// A worker's turn, of 64 at most. A worker that runs an entry goes on with it, and nothing happens. Another starts or
    /// skips the first entry, in the order of the list, of which the machine allows it; it waits where there is none and some
    /// entry runs, and is finished where every entry has ended. It takes no memory.
    pub fn start(&mut self, worker: u32) -> Turn
        requires { worker < 64 }
        ensures turn { result ≡ turn worker (state self.old) }
        ensures event { self.new ≡ with_event (event_of worker (state self.old) (turn worker (state self.old))) self.old }
    {
        match self.queue.entry_of(worker) {
            Some(entry) => Turn::Run { entry },
            None => self.take(worker),
        }
    }

    // Whether the entry that a worker ran goes on.
    fn answer(&self, worker: u32) -> StepAnswer
        ensures { result ≡ answer_at worker self.now }
    {
        match self.queue.entry_of(worker) {
            Some(_) => StepAnswer::More,
            None => StepAnswer::Done,
        }
    }

    // One statement of the entry that a worker runs.
    fn run_entry(
        &mut self,
        worker: u32,
        entry: usize,
        rows: Option<Prepared<'_>>,
    ) -> Result<(), AllocError>
        requires runs { is_free worker (state self.old).entries ≡ false }
        requires place { place_of worker (state self.old).entries ≡ entry }
        ensures ran { OnOk result (self.new ≡ with_event (Some (event.Step worker)) self.old) }
        ensures err { OnErr result (self.new ≡ self.old) }
    {
        let planned = planned_at(self.queue.plan(), entry);
        let run = run_at(self.queue.phases(), entry);
        let phase = go_on(
            self.alloc,
            &mut self.engine,
            planned,
            worker,
            run,
            rows,
            &mut self.notes,
            entry,
        )?;
        self.queue.step(worker, entry, phase);
        self.history.push_reserved(Event::Step { worker });
        Ok(())
    }

    /// One statement of the entry that a worker runs; an entry that has none left ends. `rows` are those of the statement's
    /// COPY text, where they were read before; others are dropped, and the statement's own are read. A statement that is
    /// refused changes nothing; it ends the entry, but where it gives an owner it is noted and the entry goes on.
    pub fn step(&mut self, worker: u32, rows: Option<Prepared<'_>>) -> StepAnswer
        ensures { Steps worker self.old self.new result }
    {
        match self.queue.entry_of(worker) {
            Some(entry) => match self.run_entry(worker, entry, rows) {
                Ok(()) => self.answer(worker),
                Err(_) => StepAnswer::Memory,
            },
            None => StepAnswer::Idle,
        }
    }

    // A step of a worker that runs an entry.
    fn step_one(&mut self, worker: u32) -> Result<(), AllocError>
        requires { is_free worker (state self.old).entries ≡ false }
        ensures later { IsLater self.old self.new }
        ensures nearer { OnOk result (left (state self.new).entries < left (state self.old).entries) }
    {
        match self.step(worker, None) {
            StepAnswer::Memory => Err(AllocError),
            StepAnswer::More => Ok(()),
            StepAnswer::Done => Ok(()),
            StepAnswer::Idle => Ok(()),
        }
    }

    // A turn where no entry runs; false where every entry has ended.
    fn start_one(&mut self) -> bool
        requires { list_any (λ x. is_running x.phase) (state self.old).entries ≡ false }
        ensures later { IsLater self.old self.new }
        ensures nearer { OnTrue result (left (state self.new).entries < left (state self.old).entries) }
        ensures ended { OnFalse result (all_ended (state self.new) ≡ true) }
    {
        match self.start(0) {
            Turn::Run { entry: _ } => true,
            Turn::Skip { entry: _ } => true,
            Turn::NotYet => true,
            Turn::Finished => false,
        }
    }

    // One event more; false where every entry has ended.
    fn go_further(&mut self) -> Result<bool, AllocError>
        ensures later { IsLater self.old self.new }
        ensures nearer { IfOk result (λ goes. OnTrue goes (left (state self.new).entries < left (state self.old).entries)) }
        ensures ended { IfOk result (λ goes. OnFalse goes (all_ended (state self.new) ≡ true)) }
    {
        match self.queue.first_worker() {
            Some(worker) => {
                self.step_one(worker)?;
                Ok(true)
            }
            None => Ok(self.start_one()),
        }
    }

    /// Ends every entry, by the calls that workers make. After an error, that memory ran out, the board stands at the same
    /// state of the restore or at a later one.
    pub fn finish_alone(&mut self) -> Result<(), AllocError>
        ensures later { IsLater self.old self.new }
        ensures ended { OnOk result (all_ended (state self.new) ≡ true) }
    {
        'events: while self.go_further()? {}
        Ok(())
    }

    /// What the restore has left: the engine, the statuses of the entries that have ended, and the notes. Once every entry
    /// has ended these are those of the serial restore. It takes no memory.
    pub fn result(self) -> Restored
        ensures state { result_of (state self.entry) ≡ record { catalogue = result.engine.named; statuses = result.statuses.items; notes = result.notes.items } }
        ensures role { result.engine.boot ≡ self.entry.boot }
        ensures serial { (es : List TheEntry) → self.entry.plan ≡ planned self.entry.opening es → all_ended (state self.entry) ≡ true → serial self.entry.boot self.entry.opening self.entry.plan ≡ record { catalogue = result.engine.named; statuses = result.statuses.items; notes = result.notes.items } }
    {
        any_schedule_is_serial();
        Restored {
            engine: self.engine,
            statuses: statuses_of(self.queue.into_phases(), self.statuses),
            notes: self.notes.into_all(),
        }
    }
}

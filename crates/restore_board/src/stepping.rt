//! One statement of an entry.
ghost use Rattle.std.specs.Prelude.{◌≡◌, ◌<◌, ◌++◌, ◌∷◌, [], ℕ, Ok, Err, Option, Some, length, nat_lt, if◌then◌else◌, IfOk, OnErr, OnOk};
ghost use Rattle.std.specs.List.{slice_get};
ghost use Rattle.cat_model.specs.declared.cause.Cause.{Cause as TheCause};
ghost use Rattle.cat_model.specs.Effects.{effect};
ghost use Rattle.cat_model.specs.Trees.{next, outcome, run as run_tree, seen};
ghost use Rattle.eng_steps.specs.Outcomes.{Steps};
ghost use Rattle.restore_plan.specs.Serial.{Under_way, ending, noted};
ghost use Rattle.restore_plan.specs.declared.status.EntryStatus.TheVariants as status;
ghost use Rattle.restore_core.specs.Machine.{Going, phase_behind as the_phase, ran_next};
ghost use Rattle.restore_core.specs.declared.phase.Phase.TheVariants as phase;
ghost use Rattle.serial_restore.specs.Ways.{listed};
ghost use Rattle.restore_board.specs.Notes.{noted_at};
ghost use Rattle.restore_board.specs.Ran.{HasGone, HasRun, run_in};

use crate::notes::Notes;
use cat_engine::{Engine, Prepared};
use cat_model::{Cause, Stmt};
use eng_steps::ApplyError;
use restore_core::Phase;
use restore_plan::{EntryStatus, Note, Planned, Step};
use std::alloc::{AllocError, Global};

// Carries a statement out, with the rows of a COPY text where they were read before.
fn apply(
    engine: &mut Engine,
    statement: &Stmt,
    rows: Option<Prepared<'_>>,
) -> Result<(), ApplyError>
    ensures run { Steps result (run_tree (effect engine.old.boot statement.now) engine.old.named) (λ _. Ok engine.new.named) }
    ensures boot { engine.new.boot ≡ engine.old.boot }
    ensures err { OnErr result (engine.new ≡ engine.old) }
{
    match rows {
        Some(rows) => engine.apply_prepared(statement, rows),
        None => engine.apply(statement),
    }
}

fn push_note(notes: &mut Notes, entry: usize, dump_id: u32, cause: Cause) -> Result<(), AllocError>
    requires { entry < length notes.old }
    ensures ok { OnOk result (notes.new ≡ noted_at notes.old entry (record { dump_id = dump_id; cause = cause } ∷ [])) }
    ensures err { OnErr result (notes.new ≡ notes.old) }
{
    notes.push(entry, Note { dump_id, cause })
}

fn push_cause(refused: &mut Vec<Cause>, cause: Cause) -> Result<(), AllocError>
    ensures { OnOk result (refused.new.items ≡ refused.old.items ++ cause ∷ []) }
{
    refused.push(cause)?;
    Ok(())
}

// A refusal: a note of the entry where the statement gives an owner, else what ends it.
#[tactic(auto, using(crate::proofs::Noting::noted_none))]
fn refuse(
    id: u32,
    is_owner: bool,
    cause: Cause,
    notes: &mut Notes,
    entry: usize,
    refused: &mut Vec<Cause>,
) -> Result<(), AllocError>
    requires { entry < length notes.old }
    ensures noted { OnOk result (notes.new ≡ noted_at notes.old entry (noted id is_owner (Err cause))) }
    ensures ending { OnOk result (refused.new.items ≡ refused.old.items ++ listed (ending is_owner (Err cause))) }
    ensures err { OnErr result (notes.new ≡ notes.old) }
{
    if is_owner {
        push_note(notes, entry, id, cause)
    } else {
        push_cause(refused, cause)
    }
}

// Carries a statement of an entry out. A refusal changes nothing but for the note or the cause.
#[tactic(auto, using(crate::proofs::Noting::noted_none, serial_restore::proofs::Runs::taken_next, serial_restore::proofs::Runs::taken_noted, serial_restore::proofs::Runs::taken_ending, serial_restore::proofs::Runs::refused_is))]
fn run_statement(
    engine: &mut Engine,
    id: u32,
    step: &Step,
    rows: Option<Prepared<'_>>,
    notes: &mut Notes,
    entry: usize,
    refused: &mut Vec<Cause>,
) -> Result<(), AllocError>
    requires { entry < length notes.old }
    ensures applied { OnOk result (engine.new.named ≡ next (effect engine.old.boot step.now.statement) engine.old.named) }
    ensures noted { OnOk result (notes.new ≡ noted_at notes.old entry (noted id step.now.is_owner (outcome (effect engine.old.boot step.now.statement) (seen engine.old.named)))) }
    ensures ending { OnOk result (refused.new.items ≡ refused.old.items ++ listed (ending step.now.is_owner (outcome (effect engine.old.boot step.now.statement) (seen engine.old.named)))) }
    ensures boot { engine.new.boot ≡ engine.old.boot }
    ensures err { OnErr result (engine.new ≡ engine.old) }
    ensures err_notes { OnErr result (notes.new ≡ notes.old) }
{
    match apply(engine, &step.statement, rows) {
        Ok(()) => Ok(()),
        Err(ApplyError::Refused(cause)) => refuse(id, step.is_owner, cause, notes, entry, refused),
        Err(ApplyError::Memory) => Err(AllocError),
    }
}

// Runs a statement of an entry of which so many have run.
fn run_step(
    engine: &mut Engine,
    id: u32,
    step: &Step,
    run: u32,
    rows: Option<Prepared<'_>>,
    notes: &mut Notes,
    entry: usize,
    refused: &mut Vec<Cause>,
) -> Result<u32, AllocError>
    requires there { entry < length notes.old }
    requires none { refused.old.items ≡ [] }
    ensures ran { IfOk result (λ n. (x : Going) → x.plan.id ≡ id → HasRun (ran_next engine.old.boot engine.old.named x run (Some step.now)) engine.new.named n entry x.notes notes.old notes.new refused.new.items) }
    ensures boot { engine.new.boot ≡ engine.old.boot }
    ensures err { OnErr result (engine.new ≡ engine.old) }
    ensures err_notes { OnErr result (notes.new ≡ notes.old) }
{
    match run.checked_add(1) {
        Some(next) => {
            run_statement(engine, id, step, rows, notes, entry, refused)?;
            Ok(next)
        }
        None => Err(AllocError),
    }
}

// Runs the next statement of an entry of which so many have run, if there is one. The answer is how many have run then; the
// cause of a refusal that ends the entry is put into `refused`. After an error, that memory ran out, the engine and the
// notes are as before.
fn run_next(
    engine: &mut Engine,
    planned: &Planned,
    run: u32,
    rows: Option<Prepared<'_>>,
    notes: &mut Notes,
    entry: usize,
    refused: &mut Vec<Cause>,
) -> Result<u32, AllocError>
    requires there { entry < length notes.old }
    requires none { refused.old.items ≡ [] }
    ensures ran { IfOk result (λ n. (x : Going) → x.plan ≡ planned.now → HasRun (ran_next engine.old.boot engine.old.named x run (slice_get planned.now.steps run)) engine.new.named n entry x.notes notes.old notes.new refused.new.items) }
    ensures boot { engine.new.boot ≡ engine.old.boot }
    ensures err { OnErr result (engine.new ≡ engine.old) }
    ensures err_notes { OnErr result (notes.new ≡ notes.old) }
{
    match planned.steps.as_slice().get(run as usize) {
        Some(step) => run_step(engine, planned.id, step, run, rows, notes, entry, refused),
        None => Ok(run),
    }
}

fn running_or_done(worker: u32, many: usize, run: u32) -> Phase
    ensures { result ≡ (if nat_lt run many then phase.Running worker run else phase.Ended status.Done) }
{
    if (run as usize) < many {
        Phase::Running { worker, run }
    } else {
        Phase::Ended(EntryStatus::Done)
    }
}

// Where an entry is of whose statements so many have run, the last of which may have been refused.
fn phase_behind(worker: u32, many: usize, run: u32, refused: &mut Vec<Cause>) -> Phase
    ensures { (u : Under_way) (r : Option TheCause) → run ≡ u.run → refused.old.items ≡ listed r → result ≡ the_phase worker many u r }
{
    match refused.pop() {
        Some(cause) => Phase::Ended(EntryStatus::Refused { stmt: run, cause }),
        None => running_or_done(worker, many, run),
    }
}

/// Runs the next statement, if there is one, of an entry that a worker runs and of which so many have run. The answer is
/// where the entry is then. After an error, that memory ran out, the engine and the notes are as before.
pub(crate) fn go_on(
    alloc: Global,
    engine: &mut Engine,
    planned: &Planned,
    worker: u32,
    run: u32,
    rows: Option<Prepared<'_>>,
    notes: &mut Notes,
    entry: usize,
) -> Result<Phase, AllocError>
    requires { entry < length notes.old }
    ensures gone { IfOk result (λ phase. (x : Going) → x.plan ≡ planned.now → HasGone (ran_next engine.old.boot engine.old.named x run (slice_get planned.now.steps run)) worker (length planned.now.steps) engine.new.named phase entry x.notes notes.old notes.new) }
    ensures boot { engine.new.boot ≡ engine.old.boot }
    ensures err { OnErr result (engine.new ≡ engine.old) }
    ensures err_notes { OnErr result (notes.new ≡ notes.old) }
{
    let mut refused = Vec::new(alloc);
    let ran = run_next(engine, planned, run, rows, notes, entry, &mut refused)?;
    Ok(phase_behind(worker, planned.steps.as_slice().len(), ran, &mut refused))
}

// How many of its statements have run.
fn run_in(phase: &Phase) -> u32
    ensures { result ≡ run_in phase.now }
{
    match phase {
        Phase::Running { run, .. } => *run,
        Phase::Waiting | Phase::Ended(_) => 0,
    }
}

/// The entry in this place.
pub(crate) fn planned_at(plan: &[Planned], i: usize) -> &Planned
    requires { i < length plan.now }
    ensures { slice_get plan.now i ≡ Some result.now }
{
    &plan[i]
}

/// How many of its statements the entry in this place has run, where it runs.
pub(crate) fn run_at(phases: &[Phase], i: usize) -> u32
    ensures { (worker run : ℕ) → slice_get phases.now i ≡ Some (phase.Running worker run) → result ≡ run }
{
    match phases.get(i) {
        Some(phase) => run_in(phase),
        None => 0,
    }
}

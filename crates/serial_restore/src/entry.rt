//! One entry.
ghost use Rattle.std.specs.Prelude.{◌≡◌, ◌++◌, ◌∷◌, [], None, Option, List, IfOk, OnOk};
ghost use Rattle.cat_model.specs.declared.cause.Cause.{Cause as TheCause};
ghost use Rattle.restore_plan.specs.Serial.{Ended, after_steps, blocks as the_blocking, entry_left, first_blocked};
ghost use Rattle.restore_plan.specs.declared.status.EntryStatus.TheVariants as status;
ghost use Rattle.serial_restore.specs.Blocked.{AreBlocked};
ghost use Rattle.serial_restore.specs.Ways.{IsAt, IsLeft, Leaves, listed, status_by, way};

use crate::blocked::{Blocked, end, first_blocked};
use crate::some::is_any;
use crate::statement::run_statement;
use cat_engine::Engine;
use cat_model::Cause;
use restore_plan::{EntryStatus, Note, Planned, Step};
use std::alloc::{AllocError, Global};

// Carries statements out up to the first that is refused; the answer is how many ran.
fn run_statements(
    engine: &mut Engine,
    id: u32,
    steps: &[Step],
    notes: &mut Vec<Note>,
    refused: &mut Vec<Cause>,
) -> Result<usize, AllocError>
    requires { refused.old.items ≡ [] }
    ensures at { IfOk result (λ run. IsAt (after_steps engine.old.boot id steps.now (way engine.old.named 0 notes.old.items)) engine.new.named run notes.new.items refused.new.items) }
    ensures boot { engine.new.boot ≡ engine.old.boot }
{
    let mut run = 0;
    for step in steps {
        run_statement(engine, id, step, notes, refused)?;
        run += 1;
        if is_any(refused.as_slice()) {
            return Ok(run);
        }
    }
    Ok(run)
}

// The number of a statement as a status tells it.
fn number(run: usize) -> Result<u32, AllocError>
    ensures { IfOk result (λ stmt. stmt ≡ run) }
{
    match u32::try_from(run) {
        Ok(stmt) => Ok(stmt),
        Err(_) => Err(AllocError),
    }
}

fn push_refused(statuses: &mut Vec<EntryStatus>, stmt: u32, cause: Cause) -> Result<(), AllocError>
    ensures { OnOk result (statuses.new.items ≡ statuses.old.items ++ status.Refused stmt cause ∷ []) }
{
    statuses.push(EntryStatus::Refused { stmt, cause })?;
    Ok(())
}

fn push_done(statuses: &mut Vec<EntryStatus>) -> Result<(), AllocError>
    ensures { OnOk result (statuses.new.items ≡ statuses.old.items ++ status.Done ∷ []) }
{
    statuses.push(EntryStatus::Done)?;
    Ok(())
}

fn push_skipped(statuses: &mut Vec<EntryStatus>, by: u32) -> Result<(), AllocError>
    ensures { OnOk result (statuses.new.items ≡ statuses.old.items ++ status.Skipped by ∷ []) }
{
    statuses.push(EntryStatus::Skipped { by })?;
    Ok(())
}

// Adds the status of an entry that ran, and answers whether it blocks others.
fn push_status(
    statuses: &mut Vec<EntryStatus>,
    run: usize,
    refused: &mut Vec<Cause>,
) -> Result<bool, AllocError>
    ensures added { OnOk result ((r : Option TheCause) → refused.old.items ≡ listed r → statuses.new.items ≡ statuses.old.items ++ status_by run r ∷ []) }
    ensures blocks { IfOk result (λ blocks. (r : Option TheCause) → refused.old.items ≡ listed r → blocks ≡ the_blocking (status_by run r)) }
{
    let stmt = number(run)?;
    match refused.pop() {
        Some(cause) => {
            push_refused(statuses, stmt, cause)?;
            Ok(true)
        }
        None => {
            push_done(statuses)?;
            Ok(false)
        }
    }
}

// Carries out the statements of an entry of which no dependency was refused or skipped.
fn run_entry(
    alloc: Global,
    engine: &mut Engine,
    planned: &Planned,
    statuses: &mut Vec<EntryStatus>,
    notes: &mut Vec<Note>,
) -> Result<bool, AllocError>
    ensures left { IfOk result (λ blocks. Leaves (entry_left engine.old.boot planned.now engine.old.named None) engine.new.named statuses.old.items statuses.new.items notes.old.items notes.new.items blocks) }
    ensures boot { engine.new.boot ≡ engine.old.boot }
{
    let mut own = Vec::new(alloc);
    let mut refused = Vec::new(alloc);
    let run = run_statements(
        engine,
        planned.id,
        planned.steps.as_slice(),
        &mut own,
        &mut refused,
    )?;
    notes.append(&mut own)?;
    let blocks = push_status(statuses, run, &mut refused)?;
    Ok(blocks)
}

// Skips an entry or carries it out; the answer says whether it blocks others.
fn take_entry(
    alloc: Global,
    engine: &mut Engine,
    planned: &Planned,
    blocker: Option<u32>,
    statuses: &mut Vec<EntryStatus>,
    notes: &mut Vec<Note>,
) -> Result<bool, AllocError>
    ensures left { IfOk result (λ blocks. Leaves (entry_left engine.old.boot planned.now engine.old.named blocker) engine.new.named statuses.old.items statuses.new.items notes.old.items notes.new.items blocks) }
    ensures boot { engine.new.boot ≡ engine.old.boot }
{
    match blocker {
        Some(by) => {
            push_skipped(statuses, by)?;
            Ok(true)
        }
        None => run_entry(alloc, engine, planned, statuses, notes),
    }
}

/// Skips an entry, where a dependency was refused or skipped, or carries it out.
pub(crate) fn end_entry(
    alloc: Global,
    engine: &mut Engine,
    planned: &Planned,
    blocked: &mut Blocked,
    statuses: &mut Vec<EntryStatus>,
    notes: &mut Vec<Note>,
) -> Result<(), AllocError>
    ensures left { OnOk result ((ended : Ended) → AreBlocked blocked.old ended → IsLeft (entry_left engine.old.boot planned.now engine.old.named (first_blocked ended planned.now.deps)) engine.new.named statuses.old.items statuses.new.items notes.old.items notes.new.items) }
    ensures known { OnOk result ((ended : Ended) → AreBlocked blocked.old ended → AreBlocked blocked.new (ended ++ (planned.now.id, (entry_left engine.old.boot planned.now engine.old.named (first_blocked ended planned.now.deps)).status) ∷ [])) }
    ensures boot { engine.new.boot ≡ engine.old.boot }
{
    let blocker = first_blocked(blocked, planned.deps.as_slice());
    let blocks = take_entry(alloc, engine, planned, blocker, statuses, notes)?;
    end(blocked, planned.id, blocks)?;
    Ok(())
}

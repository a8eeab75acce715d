//! The serial restore that ends at the first refusal or note.
ghost use Rattle.std.specs.Prelude.{◌≡◌, ◌++◌, [], ◌∷◌, Some, None, List, IfOk, OnOk};
ghost use Rattle.restore_plan.specs.Serial.{serial_until, steps_until};
ghost use Rattle.serial_restore.specs.Ways.{Stops};

use crate::some::is_any;
use cat_engine::Engine;
use cat_model::Cause;
use eng_steps::ApplyError;
use restore_plan::{Note, Planned, Step};
use std::alloc::{AllocError, Global};

fn push_note(stop: &mut Vec<Note>, dump_id: u32, cause: Cause) -> Result<(), AllocError>
    ensures { OnOk result (stop.new.items ≡ stop.old.items ++ record { dump_id = dump_id; cause = cause } ∷ []) }
{
    stop.push(Note { dump_id, cause })?;
    Ok(())
}

// Carries a statement out, or adds why it is refused.
fn step_until(
    engine: &mut Engine,
    id: u32,
    step: &Step,
    stop: &mut Vec<Note>,
) -> Result<(), AllocError>
    requires { stop.old.items ≡ [] }
    ensures stops { OnOk result (Stops (steps_until engine.old.boot id (step.now ∷ []) engine.old.named) engine.new.named stop.new.items) }
    ensures boot { engine.new.boot ≡ engine.old.boot }
{
    match engine.apply(&step.statement) {
        Ok(()) => Ok(()),
        Err(ApplyError::Refused(cause)) => push_note(stop, id, cause),
        Err(ApplyError::Memory) => Err(AllocError),
    }
}

// Carries out the statements of an entry up to the first that is refused.
fn entry_until(
    engine: &mut Engine,
    id: u32,
    steps: &[Step],
    stop: &mut Vec<Note>,
) -> Result<(), AllocError>
    requires { stop.old.items ≡ [] }
    ensures stops { OnOk result (Stops (steps_until engine.old.boot id steps.now engine.old.named) engine.new.named stop.new.items) }
    ensures boot { engine.new.boot ≡ engine.old.boot }
{
    for step in steps {
        step_until(engine, id, step, stop)?;
        if is_any(stop.as_slice()) {
            return Ok(());
        }
    }
    Ok(())
}

// The same for the entries of a list.
fn entries_until(
    engine: &mut Engine,
    plan: &[Planned],
    stop: &mut Vec<Note>,
) -> Result<(), AllocError>
    requires { stop.old.items ≡ [] }
    ensures { OnOk result (Stops (serial_until engine.old.boot engine.old.named plan.now) engine.new.named stop.new.items) }
{
    for planned in plan {
        entry_until(engine, planned.id, planned.steps.as_slice(), stop)?;
        if is_any(stop.as_slice()) {
            return Ok(());
        }
    }
    Ok(())
}

/// Restores a list of entries up to the first statement that is refused, owner statements too. The answer is that
/// statement's entry and why it is refused, or `None` where all were carried out.
///
/// The error is that memory ran out; some of the statements have then been carried out.
pub fn restore_until(
    alloc: Global,
    engine: &mut Engine,
    plan: &[Planned],
) -> Result<Option<Note>, AllocError>
    ensures { IfOk result (λ at. serial_until engine.old.boot engine.old.named plan.now ≡ record { catalogue = engine.new.named; at = at }) }
{
    let mut stop = Vec::new(alloc);
    entries_until(engine, plan, &mut stop)?;
    Ok(stop.pop())
}

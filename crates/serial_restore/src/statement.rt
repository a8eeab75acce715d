//! One statement of an entry.
ghost use Rattle.std.specs.Prelude.{◌≡◌, ◌++◌, ◌∷◌, [], List, Result, OnOk};
ghost use Rattle.cat_model.specs.declared.cause.Cause.{Cause as TheCause};
ghost use Rattle.cat_model.specs.Effects.{effect};
ghost use Rattle.cat_model.specs.Trees.{Change as TheChange, next, outcome, seen};
ghost use Rattle.restore_plan.specs.Serial.{ending, noted};
ghost use Rattle.serial_restore.specs.Ways.{listed};

use cat_engine::Engine;
use cat_model::Cause;
use eng_steps::ApplyError;
use restore_plan::{Note, Step};
use std::alloc::AllocError;

fn push_note(notes: &mut Vec<Note>, dump_id: u32, cause: Cause) -> Result<(), AllocError>
    ensures { OnOk result (notes.new.items ≡ notes.old.items ++ record { dump_id = dump_id; cause = cause } ∷ []) }
{
    notes.push(Note { dump_id, cause })?;
    Ok(())
}

fn push_cause(refused: &mut Vec<Cause>, cause: Cause) -> Result<(), AllocError>
    ensures { OnOk result (refused.new.items ≡ refused.old.items ++ cause ∷ []) }
{
    refused.push(cause)?;
    Ok(())
}

// A refusal: a note where the statement gives an owner, else the entry's own.
fn refuse(
    id: u32,
    is_owner: bool,
    cause: Cause,
    notes: &mut Vec<Note>,
    refused: &mut Vec<Cause>,
) -> Result<(), AllocError>
    ensures noted { OnOk result (notes.new.items ≡ notes.old.items ++ noted id is_owner (Err cause)) }
    ensures ending { OnOk result (refused.new.items ≡ refused.old.items ++ listed (ending is_owner (Err cause))) }
{
    if is_owner {
        push_note(notes, id, cause)
    } else {
        push_cause(refused, cause)
    }
}

/// Carries a statement of an entry out. Where it is refused the catalogue stays, and its cause becomes a note of the entry
/// with this dump id, for a statement that gives an owner, or is added to `refused`, whose first cause ends the entry.
///
/// The only error is want of memory; it may come before or behind what the statement does.
#[tactic(auto, using(crate::proofs::Runs::taken_next, crate::proofs::Runs::taken_noted, crate::proofs::Runs::taken_ending, crate::proofs::Runs::refused_is))]
pub(crate) fn run_statement(
    engine: &mut Engine,
    id: u32,
    step: &Step,
    notes: &mut Vec<Note>,
    refused: &mut Vec<Cause>,
) -> Result<(), AllocError>
    ensures applied { OnOk result (engine.new.named ≡ next (effect engine.old.boot step.now.statement) engine.old.named) }
    ensures noted { OnOk result (notes.new.items ≡ notes.old.items ++ noted id step.now.is_owner (outcome (effect engine.old.boot step.now.statement) (seen engine.old.named))) }
    ensures ending { OnOk result (refused.new.items ≡ refused.old.items ++ listed (ending step.now.is_owner (outcome (effect engine.old.boot step.now.statement) (seen engine.old.named)))) }
    ensures boot { engine.new.boot ≡ engine.old.boot }
{
    match engine.apply(&step.statement) {
        Ok(()) => Ok(()),
        Err(ApplyError::Refused(cause)) => refuse(id, step.is_owner, cause, notes, refused),
        Err(ApplyError::Memory) => Err(AllocError),
    }
}

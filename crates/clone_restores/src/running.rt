//! The statements of a script, carried out one after another.
ghost use Rattle.std.specs.Prelude.{◌≡◌, ◌++◌, Result, IfOk, OnOk};
ghost use Rattle.cat_model.specs.declared.cause.Cause.{Cause as TheCause};
ghost use Rattle.cat_model.specs.Values.{Named};
ghost use Rattle.eng_steps.specs.Outcomes.{IsRefusal};
ghost use Rattle.schema_folders.specs.Run.{said, next, noted, catalogue_after, refusals};
ghost use Rattle.clone_restores.specs.Lines.{report};

use crate::lines::put_refusal;
use cat_engine::Engine;
use ddl_read::Located;
use eng_steps::ApplyError;
use std::alloc::{AllocError, Global};

// Appends the line of a statement that was refused.
fn tell_refusal(
    teller: &[u8],
    at: usize,
    error: &ApplyError,
    out: &mut Vec<u8>,
) -> Result<(), AllocError>
    ensures told { OnOk result ((said : Result Named TheCause) → IsRefusal error.now said → out.new.items ≡ out.old.items ++ report teller.now (noted at said)) }
    ensures refused { OnOk result ((said : Result Named TheCause) (named : Named) → IsRefusal error.now said → next named said ≡ named) }
{
    match error {
        ApplyError::Refused(cause) => put_refusal(teller, at, cause, out),
        ApplyError::Memory => Err(AllocError),
    }
}

// Carries a statement out, and appends its line to the report where it is refused.
fn run_statement(
    engine: &mut Engine,
    teller: &[u8],
    located: &Located,
    out: &mut Vec<u8>,
) -> Result<(), AllocError>
    ensures reported { OnOk result (out.new.items ≡ out.old.items ++ report teller.now (noted located.now.start (said engine.old.boot located.now.stmt engine.old.named))) }
    ensures applied { OnOk result (engine.new.named ≡ next engine.old.named (said engine.old.boot located.now.stmt engine.old.named)) }
    ensures boot { engine.new.boot ≡ engine.old.boot }
{
    match engine.apply(&located.stmt) {
        Ok(()) => Ok(()),
        Err(error) => {
            let told = tell_refusal(teller, located.start, &error, out);
            drop(error);
            told
        }
    }
}

// Carries statements out one after another, and appends the report of those that are refused.
fn apply_statements(
    engine: &mut Engine,
    teller: &[u8],
    statements: &[Located],
    out: &mut Vec<u8>,
) -> Result<(), AllocError>
    ensures reported { OnOk result (out.new.items ≡ out.old.items ++ report teller.now (refusals engine.old.boot statements.now engine.old.named)) }
    ensures applied { OnOk result (engine.new.named ≡ catalogue_after engine.old.boot statements.now engine.old.named) }
{
    for located in statements {
        run_statement(engine, teller, located, out)?;
    }
    Ok(())
}

/// Carries statements out one after another, a refused one changing nothing, and gives the report of those that are refused.
/// The only error is want of memory.
pub(crate) fn run_statements(
    alloc: Global,
    engine: &mut Engine,
    teller: &[u8],
    statements: &[Located],
) -> Result<Vec<u8>, AllocError>
    ensures reported { IfOk result (λ out. out.items ≡ report teller.now (refusals engine.old.boot statements.now engine.old.named)) }
    ensures applied { OnOk result (engine.new.named ≡ catalogue_after engine.old.boot statements.now engine.old.named) }
{
    let mut out = Vec::new(alloc);
    apply_statements(engine, teller, statements, &mut out)?;
    Ok(out)
}

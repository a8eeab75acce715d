//! Where a script stops.
ghost use Rattle.std.specs.Prelude.{◌≡◌, ◌++◌, ◌∷◌, [], Result, Err, IfOk, OnOk, codes, decimal};
ghost use Rattle.cat_model.specs.declared.cause.Cause.{Cause as TheCause};
ghost use Rattle.cat_model.specs.Values.{Named};
ghost use Rattle.eng_steps.specs.Outcomes.{IsRefusal};
ghost use Rattle.tool_words.specs.Messages.{cause_text};
ghost use Rattle.script_runs.specs.Stopping.{stop_line, stop_told};

use cat_model::Cause;
use eng_steps::ApplyError;
use itoa::Buffer;
use refusals::write_cause;
use std::alloc::{AllocError, Global};
use tool_words::Stop;

// The text of a cause.
fn text_of(alloc: Global, cause: &Cause) -> Result<Vec<u8>, AllocError>
    ensures { IfOk result (λ text. text.items ≡ cause_text cause.now) }
{
    let mut text = Vec::new(alloc);
    write_cause(cause, &mut text)?;
    Ok(text)
}

// The stop at a statement that was refused for this cause.
fn stop_for(alloc: Global, at: usize, cause: Cause) -> Result<Stop, AllocError>
    ensures { IfOk result (λ stop. stop ≡ (at, cause)) }
{
    match text_of(alloc, &cause) {
        Ok(text) => Ok(Stop::new(at, cause, text)),
        Err(error) => {
            drop(cause);
            Err(error)
        }
    }
}

// The stop at a statement that was refused.
pub(crate) fn stopped_at(alloc: Global, at: usize, error: ApplyError) -> Result<Stop, AllocError>
    ensures { IfOk result (λ stop. (said : Result Named TheCause) → IsRefusal error said → (said ≡ Err stop.1) × (stop.0 ≡ at)) }
{
    match error {
        ApplyError::Refused(cause) => stop_for(alloc, at, cause),
        ApplyError::Memory => Err(AllocError),
    }
}

// Appends a number.
fn put_number(number: usize, out: &mut Vec<u8>) -> Result<(), AllocError>
    ensures { OnOk result (out.new.items ≡ out.old.items ++ decimal number) }
{
    let mut digits = Buffer::new();
    out.extend_from_slice(digits.format(number).as_bytes())
}

// Appends a place behind its words.
fn put_place(at: usize, out: &mut Vec<u8>) -> Result<(), AllocError>
    ensures { OnOk result (out.new.items ≡ out.old.items ++ (codes "psql: error: stopped at " ++ decimal at ++ codes ": ")) }
{
    out.extend_from_slice(b"psql: error: stopped at ")?;
    put_number(at, out)?;
    out.extend_from_slice(b": ")
}

// Appends why it was refused.
fn put_cause(stop: &Stop, out: &mut Vec<u8>) -> Result<(), AllocError>
    ensures { OnOk result (out.new.items ≡ out.old.items ++ (cause_text stop.now.1 ++ 10 ∷ [])) }
{
    out.extend_from_slice(stop.text())?;
    out.extend_from_slice(b"\n")
}

// Appends psql's line of the statement at which it stopped.
fn put_stop(stop: &Stop, out: &mut Vec<u8>) -> Result<(), AllocError>
    ensures { OnOk result (out.new.items ≡ out.old.items ++ stop_line stop.now) }
{
    put_place(stop.place(), out)?;
    put_cause(stop, out)
}

// What psql tells of where it stopped, if it did.
pub(crate) fn stop_told(alloc: Global, stopped: &Option<Stop>) -> Result<Vec<u8>, AllocError>
    ensures { IfOk result (λ text. text.items ≡ stop_told stopped.now) }
{
    let mut text = Vec::new(alloc);
    if let Some(stop) = stopped {
        put_stop(stop, &mut text)?;
    }
    Ok(text)
}

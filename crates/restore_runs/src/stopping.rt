//! Where a restore stopped.
ghost use Rattle.std.specs.Prelude.{◌≡◌, ◌++◌, ◌∷◌, [], IfOk, OnOk, codes, decimal};
ghost use Rattle.tool_words.specs.Messages.{cause_text};
ghost use Rattle.restore_runs.specs.Endings.{stopping};
ghost use Rattle.restore_runs.specs.Reports.{stop_line, stop_told};

use crate::lines::put_told_number;
use cat_model::Cause;
use refusals::write_cause;
use restore_plan::Note;
use std::alloc::{AllocError, Global};
use tool_words::RestoreStop;

// The text of a cause.
fn text_of(alloc: Global, cause: &Cause) -> Result<Vec<u8>, AllocError>
    ensures { IfOk result (λ text. text.items ≡ cause_text cause.now) }
{
    let mut text = Vec::new(alloc);
    write_cause(cause, &mut text)?;
    Ok(text)
}

// The stop at an entry of which a statement was refused for this cause.
fn stop_for(alloc: Global, dump_id: u32, cause: Cause) -> Result<RestoreStop, AllocError>
    ensures { IfOk result (λ stop. stop ≡ (dump_id, cause)) }
{
    match text_of(alloc, &cause) {
        Ok(text) => Ok(RestoreStop::new(dump_id, cause, text)),
        Err(error) => {
            drop(cause);
            Err(error)
        }
    }
}

/// Where a restore stopped, if it did.
pub(crate) fn stop_of(alloc: Global, note: Option<Note>) -> Result<Option<RestoreStop>, AllocError>
    ensures { IfOk result (λ stop. stop ≡ stopping note) }
{
    match note {
        None => Ok(None),
        Some(Note { dump_id, cause }) => Ok(Some(stop_for(alloc, dump_id, cause)?)),
    }
}

// Appends why it stopped, and a line feed.
fn put_text(stop: &RestoreStop, out: &mut Vec<u8>) -> Result<(), AllocError>
    ensures { OnOk result (out.new.items ≡ out.old.items ++ (codes ": " ++ cause_text stop.now.1 ++ 10 ∷ [])) }
{
    out.extend_from_slice(b": ")?;
    out.extend_from_slice(stop.text())?;
    out.extend_from_slice(b"\n")
}

// Appends the name of the tool and an entry's dump id, each with words behind it or before it.
fn put_place(teller: &[u8], entry: u32, out: &mut Vec<u8>) -> Result<(), AllocError>
    ensures { OnOk result (out.new.items ≡ out.old.items ++ (teller.now ++ codes ": error: stopped at entry " ++ decimal entry)) }
{
    put_told_number(teller, b": error: stopped at entry ", u64::from(entry), out)
}

// Appends the line of the entry at which a restore stopped.
fn put_stop(teller: &[u8], stop: &RestoreStop, out: &mut Vec<u8>) -> Result<(), AllocError>
    ensures { OnOk result (out.new.items ≡ out.old.items ++ stop_line teller.now stop.now) }
{
    put_place(teller, stop.entry(), out)?;
    put_text(stop, out)
}

/// What is told of where a restore stopped, if it did.
pub(crate) fn stop_told(
    alloc: Global,
    teller: &[u8],
    stop: &Option<RestoreStop>,
) -> Result<Vec<u8>, AllocError>
    ensures { IfOk result (λ text. text.items ≡ stop_told teller.now stop.now) }
{
    let mut text = Vec::new(alloc);
    if let Some(stop) = stop {
        put_stop(teller, stop, &mut text)?;
    }
    Ok(text)
}

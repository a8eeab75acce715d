//! The lines of refused statements.
ghost use Rattle.std.specs.Prelude.{◌≡◌, ◌++◌, ◌∷◌, [], OnOk, decimal, codes};
ghost use Rattle.tool_words.specs.Messages.{cause_text, refusal_line, report};

use crate::causes::write_cause;
use crate::parts::put_numbered;
use cat_model::Cause;
use std::alloc::AllocError;
use std::marker::Model;

/// A statement of a script that was refused. A contract sees it as its place and the cause.
#[derive(Drop)]
pub struct Refusal {
    at: usize,
    cause: Cause,
}

impl Model for Refusal {
    ghost use Rattle.std.specs.Prelude.{ℕ};
    ghost use Rattle.cat_model.specs.declared.cause.Cause.{Cause};

    ghost Value = { ℕ × Cause };

    ghost view = { λ r. (r.at, r.cause) };
}

impl Refusal {
    /// A statement whose first byte is the script's byte `at`, from 0, and why it was refused.
    pub fn new(at: usize, cause: Cause) -> Refusal
        ensures { result ≡ (at, cause) }
    {
        Refusal { at, cause }
    }

    /// Appends its line.
    fn write(&self, out: &mut Vec<u8>) -> Result<(), AllocError>
        ensures { OnOk result (out.new.items ≡ out.old.items ++ refusal_line self.now) }
    {
        write_refusal(self.at, &self.cause, out)
    }
}

/// Appends where the line of a statement begins.
fn put_place(at: usize, out: &mut Vec<u8>) -> Result<(), AllocError>
    ensures { OnOk result (out.new.items ≡ out.old.items ++ (codes "psql: error: at " ++ decimal at ++ codes ": ")) }
{
    put_numbered(b"psql: error: at ", at as u64, b": ", out)
}

/// Appends why a statement was refused, and a line feed.
fn put_cause_line(cause: &Cause, out: &mut Vec<u8>) -> Result<(), AllocError>
    ensures { OnOk result (out.new.items ≡ out.old.items ++ (cause_text cause.now ++ 10 ∷ [])) }
{
    write_cause(cause, out)?;
    out.extend_from_slice(b"\n")
}

/// Appends psql's line of a statement that was refused: `psql: error: at PLACE: CAUSE` and a line feed. The place is the
/// script's byte, from 0, with which the statement begins.
///
/// The only error is want of memory; a first part of the line may have been appended then.
pub fn write_refusal(at: usize, cause: &Cause, out: &mut Vec<u8>) -> Result<(), AllocError>
    ensures { OnOk result (out.new.items ≡ out.old.items ++ refusal_line (at, cause.now)) }
{
    put_place(at, out)?;
    put_cause_line(cause, out)
}

/// Appends psql's report of the statements that were refused, a line each, in their order.
///
/// The only error is want of memory; a first part of the report may have been appended then.
pub fn write_report(refusals: &[Refusal], out: &mut Vec<u8>) -> Result<(), AllocError>
    ensures { OnOk result (out.new.items ≡ out.old.items ++ report refusals.now) }
{
    for refusal in refusals {
        refusal.write(out)?;
    }
    Ok(())
}

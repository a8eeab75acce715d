//! The line of a statement that was refused, by the tool that tells it.
ghost use Rattle.std.specs.Prelude.{◌≡◌, ◌++◌, ◌∷◌, [], OnOk, codes, decimal};
ghost use Rattle.tool_words.specs.Messages.{cause_text};
ghost use Rattle.clone_restores.specs.Lines.{refusal_line};

use cat_model::Cause;
use itoa::Buffer;
use refusals::write_cause;
use std::alloc::AllocError;

// Appends a number.
fn put_number(number: usize, out: &mut Vec<u8>) -> Result<(), AllocError>
    ensures { OnOk result (out.new.items ≡ out.old.items ++ decimal number) }
{
    let mut digits = Buffer::new();
    out.extend_from_slice(digits.format(number).as_bytes())
}

// Appends a number between two texts.
fn put_numbered(
    before: &[u8],
    number: usize,
    behind: &[u8],
    out: &mut Vec<u8>,
) -> Result<(), AllocError>
    ensures { OnOk result (out.new.items ≡ out.old.items ++ (before.now ++ decimal number ++ behind.now)) }
{
    out.extend_from_slice(before)?;
    put_number(number, out)?;
    out.extend_from_slice(behind)
}

// Appends a place behind its words.
fn put_place(at: usize, out: &mut Vec<u8>) -> Result<(), AllocError>
    ensures { OnOk result (out.new.items ≡ out.old.items ++ (codes ": error: at " ++ decimal at ++ codes ": ")) }
{
    put_numbered(b": error: at ", at, b": ", out)
}

// Appends the teller's name, and a place.
fn put_told_place(teller: &[u8], at: usize, out: &mut Vec<u8>) -> Result<(), AllocError>
    ensures { OnOk result (out.new.items ≡ out.old.items ++ (teller.now ++ (codes ": error: at " ++ decimal at ++ codes ": "))) }
{
    out.extend_from_slice(teller)?;
    put_place(at, out)
}

// Appends a cause, and a line feed.
fn put_cause_line(cause: &Cause, out: &mut Vec<u8>) -> Result<(), AllocError>
    ensures { OnOk result (out.new.items ≡ out.old.items ++ (cause_text cause.now ++ 10 ∷ [])) }
{
    write_cause(cause, out)?;
    out.extend_from_slice(b"\n")
}

// Appends the line of a statement that was refused.
pub(crate) fn put_refusal(
    teller: &[u8],
    at: usize,
    cause: &Cause,
    out: &mut Vec<u8>,
) -> Result<(), AllocError>
    ensures { OnOk result (out.new.items ≡ out.old.items ++ refusal_line teller.now (at, cause.now)) }
{
    put_told_place(teller, at, out)?;
    put_cause_line(cause, out)
}

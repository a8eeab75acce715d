//! Lines of one entry.
ghost use Rattle.std.specs.Prelude.{◌≡◌, ◌++◌, OnOk, codes, decimal};
ghost use Rattle.restore_runs.specs.Reports.{entry_words, reason, error_line, skip_line, status_line, warning_line};

use cat_model::Cause;
use itoa::Buffer;
use refusals::write_cause;
use restore_plan::EntryStatus;
use std::alloc::AllocError;
use toc_entry::Entry;

/// Appends a number behind words.
pub(crate) fn put_number(words: &[u8], number: u64, out: &mut Vec<u8>) -> Result<(), AllocError>
    ensures { OnOk result (out.new.items ≡ out.old.items ++ (words.now ++ decimal number)) }
{
    out.extend_from_slice(words)?;
    out.extend_from_slice(Buffer::new().format(number).as_bytes())
}

/// Appends the name of the tool, and words behind it.
pub(crate) fn put_teller(teller: &[u8], words: &[u8], out: &mut Vec<u8>) -> Result<(), AllocError>
    ensures { OnOk result (out.new.items ≡ out.old.items ++ (teller.now ++ words.now)) }
{
    out.extend_from_slice(teller)?;
    out.extend_from_slice(words)
}

/// Appends the name of the tool, words behind it, and a number behind them.
pub(crate) fn put_told_number(
    teller: &[u8],
    words: &[u8],
    number: u64,
    out: &mut Vec<u8>,
) -> Result<(), AllocError>
    ensures { OnOk result (out.new.items ≡ out.old.items ++ (teller.now ++ words.now ++ decimal number)) }
{
    put_teller(teller, words, out)?;
    put_number(b"", number, out)
}

fn put_word(word: &[u8], out: &mut Vec<u8>) -> Result<(), AllocError>
    ensures { OnOk result (out.new.items ≡ out.old.items ++ (codes " " ++ word.now)) }
{
    out.extend_from_slice(b" ")?;
    out.extend_from_slice(word)
}

// Appends an entry by its dump id, its kind and its name.
fn put_entry(entry: &Entry, out: &mut Vec<u8>) -> Result<(), AllocError>
    ensures { OnOk result (out.new.items ≡ out.old.items ++ entry_words entry.now) }
{
    put_number(b"entry ", u64::from(entry.dump_id), out)?;
    put_word(entry.desc.as_bytes(), out)?;
    put_word(entry.tag.as_bytes(), out)
}

/// Appends why a statement was refused, and a line feed.
pub(crate) fn put_reason(cause: &Cause, out: &mut Vec<u8>) -> Result<(), AllocError>
    ensures { OnOk result (out.new.items ≡ out.old.items ++ reason cause.now) }
{
    out.extend_from_slice(b": ")?;
    write_cause(cause, out)?;
    out.extend_from_slice(b"\n")
}

fn put_told_entry(
    teller: &[u8],
    words: &[u8],
    entry: &Entry,
    out: &mut Vec<u8>,
) -> Result<(), AllocError>
    ensures { OnOk result (out.new.items ≡ out.old.items ++ (teller.now ++ words.now ++ entry_words entry.now)) }
{
    put_teller(teller, words, out)?;
    put_entry(entry, out)
}

/// Appends the line of a statement of an entry that was refused.
pub(crate) fn put_error(
    teller: &[u8],
    entry: &Entry,
    cause: &Cause,
    out: &mut Vec<u8>,
) -> Result<(), AllocError>
    ensures { OnOk result (out.new.items ≡ out.old.items ++ error_line teller.now entry.now cause.now) }
{
    put_told_entry(teller, b": error: ", entry, out)?;
    put_reason(cause, out)
}

fn put_blocker(by: u32, out: &mut Vec<u8>) -> Result<(), AllocError>
    ensures { OnOk result (out.new.items ≡ out.old.items ++ (codes " skipped: depends on entry " ++ decimal by ++ codes "\n")) }
{
    put_number(b" skipped: depends on entry ", u64::from(by), out)?;
    out.extend_from_slice(b"\n")
}

// Appends the line of an entry that was skipped.
fn put_skip(teller: &[u8], entry: &Entry, by: u32, out: &mut Vec<u8>) -> Result<(), AllocError>
    ensures { OnOk result (out.new.items ≡ out.old.items ++ skip_line teller.now entry.now by) }
{
    put_told_entry(teller, b": ", entry, out)?;
    put_blocker(by, out)
}

/// Appends what is told of an entry's status.
pub(crate) fn put_status(
    teller: &[u8],
    entry: &Entry,
    status: &EntryStatus,
    out: &mut Vec<u8>,
) -> Result<(), AllocError>
    ensures { OnOk result (out.new.items ≡ out.old.items ++ status_line teller.now entry.now status.now) }
{
    match status {
        EntryStatus::Done => Ok(()),
        EntryStatus::Refused { cause, .. } => put_error(teller, entry, cause, out),
        EntryStatus::Skipped { by } => put_skip(teller, entry, *by, out),
    }
}

/// Appends how many errors there were.
pub(crate) fn put_warning(teller: &[u8], errors: u64, out: &mut Vec<u8>) -> Result<(), AllocError>
    ensures { OnOk result (out.new.items ≡ out.old.items ++ warning_line teller.now errors) }
{
    put_told_number(
        teller,
        b": warning: errors ignored on restore: ",
        errors,
        out,
    )?;
    out.extend_from_slice(b"\n")
}

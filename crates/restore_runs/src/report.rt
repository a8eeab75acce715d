//! The report of a restore.
ghost use Rattle.std.specs.Prelude.{◌≡◌, ◌≤◌, ◌++◌, ◌∷◌, List, take, drop, length, slice_get, count_by, IfOk, OnOk};
ghost use Rattle.std.specs.Option.{option_copied};
ghost use Rattle.restore_plan.specs.declared.status.EntryStatus.{EntryStatus as TheStatus};
ghost use Rattle.toc_entry.specs.declared.entry.Entry.{Entry as TheEntry};
ghost use Rattle.restore_runs.specs.Reports.{own, note_lines, status_line, entry_lines, is_refused, errors, warning, report};
ghost use Rattle.restore_runs.specs.Statuses.{with_status, behind_status};

use crate::lines::{put_error, put_status, put_warning};
use restore_plan::{EntryStatus, Note};
use std::alloc::AllocError;
use toc_entry::Entry;

// How many of the notes at the front are of the entry with this dump id.
fn own(id: u32, notes: &[Note]) -> usize
    ensures count { result ≡ own id notes.now }
    ensures within { result ≤ length notes.now }
{
    let mut count = 0;
    for note in notes {
        if note.dump_id != id {
            return count;
        }
        count += 1;
    }
    count
}

// Appends the lines of an entry's notes.
fn put_notes(
    teller: &[u8],
    entry: &Entry,
    notes: &[Note],
    out: &mut Vec<u8>,
) -> Result<(), AllocError>
    ensures { OnOk result (out.new.items ≡ out.old.items ++ note_lines teller.now entry.now notes.now) }
{
    for note in notes {
        put_error(teller, entry, &note.cause, out)?;
    }
    Ok(())
}

// Appends the lines of the notes at the front that are of the entry; the answer is the others.
fn put_own<'a>(
    teller: &[u8],
    entry: &Entry,
    notes: &'a [Note],
    out: &mut Vec<u8>,
) -> Result<&'a [Note], AllocError>
    ensures told { OnOk result (out.new.items ≡ out.old.items ++ note_lines teller.now entry.now (take (own entry.now.dump_id notes.now) notes.now)) }
    ensures rest { IfOk result (λ rest. rest.now ≡ drop (own entry.now.dump_id notes.now) notes.now) }
{
    let count = own(entry.dump_id, notes);
    put_notes(teller, entry, &notes[..count], out)?;
    Ok(&notes[count..])
}

// The status at a place.
fn status_at(statuses: &[EntryStatus], place: usize) -> Option<&EntryStatus>
    ensures { option_copied result ≡ slice_get statuses.now place }
{
    statuses.get(place)
}

// Appends the lines of an entry and of what came of it; the answer is the notes of the entries behind it.
fn put_entry<'a>(
    teller: &[u8],
    entry: &Entry,
    status: &EntryStatus,
    notes: &'a [Note],
    out: &mut Vec<u8>,
) -> Result<&'a [Note], AllocError>
    ensures told { OnOk result (out.new.items ≡ out.old.items ++ (note_lines teller.now entry.now (take (own entry.now.dump_id notes.now) notes.now) ++ status_line teller.now entry.now status.now)) }
    ensures rest { IfOk result (λ rest. rest.now ≡ drop (own entry.now.dump_id notes.now) notes.now) }
{
    let rest = put_own(teller, entry, notes, out)?;
    put_status(teller, entry, status, out)?;
    Ok(rest)
}

// The same, where the entry has a status.
fn put_next<'a>(
    teller: &[u8],
    entry: &Entry,
    status: Option<&EntryStatus>,
    notes: &'a [Note],
    out: &mut Vec<u8>,
) -> Result<&'a [Note], AllocError>
    ensures { IfOk result (λ rest. (es : List TheEntry) (later : List TheStatus)
        → out.new.items ++ entry_lines teller.now es (behind_status (option_copied status.entry) later) rest.now ≡ out.old.items ++ entry_lines teller.now (entry.now ∷ es) (with_status (option_copied status.entry) later) notes.now) }
{
    match status {
        None => Ok(notes),
        Some(status) => put_entry(teller, entry, status, notes, out),
    }
}

// Appends the lines of entries and of what came of each.
fn put_entries(
    teller: &[u8],
    entries: &[Entry],
    statuses: &[EntryStatus],
    notes: &[Note],
    out: &mut Vec<u8>,
) -> Result<(), AllocError>
    ensures { OnOk result (out.new.items ≡ out.old.items ++ entry_lines teller.now entries.now statuses.now notes.now) }
{
    let mut place = 0;
    let mut left = notes;
    for entry in entries {
        let status = status_at(statuses, place);
        left = put_next(teller, entry, status, left, out)?;
        place += 1;
    }
    Ok(())
}

fn is_refused(status: &EntryStatus) -> bool
    ensures { result ≡ is_refused status.now }
{
    matches!(status, EntryStatus::Refused { .. })
}

fn refused(statuses: &[EntryStatus]) -> usize
    ensures { result ≡ count_by is_refused statuses.now }
{
    let mut count = 0;
    for status in statuses {
        if is_refused(status) {
            count += 1;
        }
    }
    count
}

/// How many errors a restore had: entries that were refused, and owner statements that were. The error is that they can't
/// be counted, for which no memory would do.
pub(crate) fn errors(statuses: &[EntryStatus], notes: &[Note]) -> Result<u64, AllocError>
    ensures { IfOk result (λ n. n ≡ errors statuses.now notes.now) }
{
    match (refused(statuses) as u64).checked_add(notes.len() as u64) {
        Some(errors) => Ok(errors),
        None => Err(AllocError),
    }
}

fn put_errors(teller: &[u8], errors: u64, out: &mut Vec<u8>) -> Result<(), AllocError>
    ensures { OnOk result (out.new.items ≡ out.old.items ++ warning teller.now errors) }
{
    if errors == 0 {
        Ok(())
    } else {
        put_warning(teller, errors, out)
    }
}

/// Appends what pg_restore tells of a restore, in the order of its list: of each entry a line for its owner statement where
/// that was refused, `TOOL: error: entry ID DESC TAG: CAUSE`, then the same for the statement at which it was refused, or
/// `TOOL: entry ID DESC TAG skipped: depends on entry ID`; and behind them, where there were any, how many errors there were.
///
/// The only error is want of memory; a first part of the report may have been appended then.
/// <https://www.postgresql.org/docs/16/app-pgrestore.html>
#[tactic(auto, unfolding(crate::specs::Reports::report))]
pub fn write_report(
    teller: &[u8],
    entries: &[Entry],
    statuses: &[EntryStatus],
    notes: &[Note],
    out: &mut Vec<u8>,
) -> Result<(), AllocError>
    ensures { OnOk result (out.new.items ≡ out.old.items ++ report teller.now entries.now statuses.now notes.now) }
{
    put_entries(teller, entries, statuses, notes, out)?;
    let errors = errors(statuses, notes)?;
    put_errors(teller, errors, out)
}

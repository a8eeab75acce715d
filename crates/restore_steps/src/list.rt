//! Entries with their rows, as a restore sees them.
ghost use Rattle.std.specs.Prelude.{◌≡◌, drop, map, option_map, IfOk};
ghost use Rattle.std.specs.Vec.Iter.{into_iter_items};
ghost use Rattle.restore_steps.specs.Statements.{definition_count, statements};
ghost use Rattle.restore_steps.specs.Faults.{Gives, entries_due, entry_due, entry_of, first_text, left_out, told, unless_left_out};

use crate::fault::{PlanError, PlanFault};
use crate::kinds::{kind_of, left_out};
use crate::statements::{EntrySteps, statements};
use cat_model::{Items, What};
use ddl_read::ReadStmtsError;
use restore_plan::{Entry, Step};
use std::alloc::{AllocError, Global};
use std::vec::IntoIter;
use toc_entry::Entry as Archived;

/// The section of what is restored behind the rows.
const POST_DATA: u8 = 4;

// The statements of an entry, or the fault of its texts.
fn statements_told(
    alloc: Global,
    entry: &Archived,
    rows: Option<Vec<u8>>,
    owners: bool,
) -> Result<EntrySteps, PlanError>
    ensures steps { Gives (λ s. s.steps.items) result (told entry.now.dump_id (statements owners entry.now (option_map (λ r. r.items) rows))) }
    ensures defined { IfOk result (λ s. s.defined ≡ definition_count entry.now) }
{
    match statements(alloc, entry, rows, owners) {
        Ok(statements) => Ok(statements),
        Err(ReadStmtsError::Fault(fault)) => {
            Err(PlanError::Fault(PlanFault::BadDefn(entry.dump_id, fault)))
        }
        Err(ReadStmtsError::Memory) => Err(PlanError::Memory),
    }
}

// Goes on unless the entry is left out.
fn unless_left_out(entry: &Archived) -> Result<(), PlanError>
    ensures { Gives (λ u. u) result (unless_left_out entry.now.dump_id (left_out entry.now) tt) }
{
    match left_out(entry) {
        Ok(None) => Ok(()),
        Ok(Some(what)) => Err(PlanError::Fault(PlanFault::OutOfProfile(entry.dump_id, what))),
        Err(AllocError) => Err(PlanError::Memory),
    }
}

// The entry with these statements.
fn entry_of(alloc: Global, entry: &Archived, steps: Vec<Step>) -> Result<Entry, AllocError>
    ensures { IfOk result (λ e. e ≡ entry_of entry.now steps.items) }
{
    let listed = entry.depends.as_slice().to_vec(alloc)?;
    Ok(Entry {
        id: entry.dump_id,
        post_data: entry.section == POST_DATA,
        kind: kind_of(entry.desc.as_bytes()),
        listed: Items::new(listed),
        steps: Items::new(steps),
    })
}

// An entry as a restore sees it, and how many statements its definition reads as.
#[derive(Drop)]
struct Restored {
    entry: Entry,
    defined: usize,
}

// An entry and its rows as a restore sees them, with its owner statement or without. `BadDefn` where its definition doesn't
// read, else where its COPY statement followed by its rows doesn't; `OutOfProfile` where all of them read and the entry is
// left out; or `Memory`.
#[tactic(auto, unfolding(crate::specs::Faults::entry_due))]
fn restored_entry(
    alloc: Global,
    entry: &Archived,
    rows: Option<Vec<u8>>,
    owners: bool,
) -> Result<Restored, PlanError>
    ensures entry { Gives (λ r. r.entry) result (entry_due owners entry.now (option_map (λ r. r.items) rows)) }
    ensures defined { IfOk result (λ r. r.defined ≡ definition_count entry.now) }
{
    let EntrySteps { steps, defined } = statements_told(alloc, entry, rows, owners)?;
    unless_left_out(entry)?;
    Ok(Restored {
        entry: entry_of(alloc, entry, steps)?,
        defined,
    })
}

// The rows of the next entry, which has none where no text is left.
fn next_text(texts: &mut IntoIter<Option<Vec<u8>>>) -> Option<Vec<u8>>
    ensures first { option_map (λ r. r.items) result ≡ first_text (into_iter_items texts.old) }
    ensures rest { into_iter_items texts.new ≡ drop 1 (into_iter_items texts.old) }
{
    match texts.next() {
        Some(text) => text,
        None => None,
    }
}

/// Entries as a restore sees them.
#[derive(Drop)]
pub struct RestoredEntries {
    /// Each entry with its statements.
    pub entries: Vec<Entry>,
    /// How many statements each entry's definition reads as; they stand before those of its rows.
    pub defined: Vec<usize>,
}

/// Entries with their rows as a restore sees them, with their owner statements or without. An entry for which no text is
/// left has no rows.
///
/// # Errors
///
/// That of the first entry that has one: `BadDefn` where its definition doesn't read, else where its COPY statement
/// followed by its rows doesn't, else `OutOfProfile` where it is left out. Or `Memory`.
pub fn restored_entries(
    alloc: Global,
    entries: &[Archived],
    texts: Vec<Option<Vec<u8>>>,
    owners: bool,
) -> Result<RestoredEntries, PlanError>
    ensures entries { Gives (λ r. r.entries.items) result (entries_due owners entries.now texts.items) }
    ensures defined { IfOk result (λ r. r.defined.items ≡ map definition_count entries.now) }
{
    let mut restored = Vec::new(alloc);
    let mut counts = Vec::new(alloc);
    let mut texts = texts.into_iter();
    for entry in entries {
        let rows = next_text(&mut texts);
        let Restored {
            entry: made,
            defined: count,
        } = restored_entry(alloc, entry, rows, owners)?;
        restored.push(made)?;
        counts.push(count)?;
    }
    Ok(RestoredEntries {
        entries: restored,
        defined: counts,
    })
}

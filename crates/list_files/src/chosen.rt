//! The entries that a restore takes.
ghost use Rattle.std.specs.Prelude.{◌≡◌, IfOk};
ghost use Rattle.std.specs.Option.{option_copied};
ghost use Rattle.toc_parts.specs.Answers.{Gives};
ghost use Rattle.list_files.specs.Books.{edit_fault};
ghost use Rattle.list_files.specs.Edits.{marked, chosen};

use crate::editing::edit;
use crate::fault::EditError;
use entry_choices::{Options, wanted_marks, wanted_places};
use std::alloc::{AllocError, Global};
use toc_entry::Entry;

// The places that are marked.
fn marked(alloc: Global, marks: &[bool], places: &[usize]) -> Result<Vec<usize>, AllocError>
    ensures { IfOk result (λ v. v.items ≡ marked marks.now places.now) }
{
    let mut found = Vec::new(alloc);
    for place in places {
        if marks.get(*place).copied().unwrap_or(false) {
            found.push(*place)?;
        }
    }
    Ok(found)
}

/// The places of the entries that a restore takes: those that the options want, in the order of the list file, or of the
/// archive where there is none.
///
/// What is wanted goes by the archive, whatever the list leaves out. Each fault is the list's, as `edit` has it.
/// <https://www.postgresql.org/docs/16/app-pgrestore.html>
pub fn chosen_places(
    alloc: Global,
    entries: &[Entry],
    options: &Options,
    list: Option<&[u8]>,
) -> Result<Vec<usize>, EditError>
    ensures { Gives edit_fault (λ v. v.items) result (chosen options.now entries.now (option_copied list.entry)) }
{
    match list {
        None => Ok(wanted_places(alloc, entries, options)?),
        Some(list) => listed_places(alloc, entries, options, list),
    }
}

fn listed_places(
    alloc: Global,
    entries: &[Entry],
    options: &Options,
    list: &[u8],
) -> Result<Vec<usize>, EditError>
    ensures { Gives edit_fault (λ v. v.items) result (chosen options.now entries.now (Some list.now)) }
{
    let places = edit(alloc, entries, list)?;
    let marks = wanted_marks(alloc, entries, options)?;
    Ok(marked(alloc, &marks, &places)?)
}

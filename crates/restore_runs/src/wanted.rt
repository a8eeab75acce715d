//! The entries that a restore takes, as statements.
ghost use Rattle.std.specs.Prelude.{◌≡◌, map, option_map};
ghost use Rattle.restore_steps.specs.Faults.{Gives};
ghost use Rattle.restore_runs.specs.Wanted.{wanted_due};

use restore_plan::Entry;
use restore_steps::{PlanError, restored_entries};
use std::alloc::Global;
use toc_entry::Entry as Archived;

/// The entries that a restore takes, with their rows, each as its statements, with owner statements or without. The texts
/// are the rows of each; an entry for which no text is left has none.
///
/// # Errors
///
/// That of the first entry that has one: `BadDefn` where its definition doesn't read, else where its COPY statement followed
/// by its rows doesn't, else `OutOfProfile` where it is left out. Or `Memory`.
pub fn wanted_entries(
    alloc: Global,
    entries: &[Archived],
    texts: Vec<Option<Vec<u8>>>,
    owners: bool,
) -> Result<Vec<Entry>, PlanError>
    ensures { Gives (λ v. v.items) result (wanted_due owners entries.now (map (option_map (λ rows. rows.items)) texts.items)) }
{
    Ok(restored_entries(alloc, entries, texts, owners)?.entries)
}

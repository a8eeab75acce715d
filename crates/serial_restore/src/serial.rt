//! The serial restore.
ghost use Rattle.std.specs.Prelude.{◌≡◌, ◌++◌, [], List, IfOk, OnOk};
ghost use Rattle.restore_plan.specs.Serial.{Restored, serial};

use crate::entry::end_entry;
use cat_engine::Engine;
use cat_model::Items;
use restore_plan::{EntryStatus, Note, Planned};
use std::alloc::{AllocError, Global};
use std::collections::BTreeSet;

/// What came of the entries of a restore.
#[derive(Drop)]
pub struct Report {
    /// The status of each, in the order of the list.
    pub statuses: Items<EntryStatus>,
    /// The owner statements that were refused, in the order of the list.
    pub notes: Items<Note>,
}

// Carries out the entries of a list, and adds what comes of each.
fn run_entries(
    alloc: Global,
    engine: &mut Engine,
    plan: &[Planned],
    statuses: &mut Vec<EntryStatus>,
    notes: &mut Vec<Note>,
) -> Result<(), AllocError>
    requires none { statuses.old.items ≡ [] }
    requires no_notes { notes.old.items ≡ [] }
    ensures { OnOk result (serial engine.old.boot engine.old.named plan.now ≡ record { catalogue = engine.new.named; statuses = statuses.new.items; notes = notes.new.items }) }
{
    let mut blocked = BTreeSet::new(alloc);
    for planned in plan {
        end_entry(alloc, engine, planned, &mut blocked, statuses, notes)?;
    }
    Ok(())
}

/// Restores a list of entries, one after another in its order: an entry is skipped where a dependency of it was refused
/// or skipped, else its statements are carried out up to the first that is refused; an owner statement that is refused is
/// noted, and its entry goes on. What is refused changes nothing.
/// <https://www.postgresql.org/docs/16/app-pgrestore.html>
///
/// The error is that memory ran out; some of the entries have then been carried out.
pub fn restore_serial(
    alloc: Global,
    engine: &mut Engine,
    plan: &[Planned],
) -> Result<Report, AllocError>
    ensures { IfOk result (λ report. serial engine.old.boot engine.old.named plan.now ≡ record { catalogue = engine.new.named; statuses = report.statuses; notes = report.notes }) }
{
    let mut statuses = Vec::new(alloc);
    let mut notes = Vec::new(alloc);
    run_entries(alloc, engine, plan, &mut statuses, &mut notes)?;
    Ok(Report {
        statuses: Items::new(statuses),
        notes: Items::new(notes),
    })
}

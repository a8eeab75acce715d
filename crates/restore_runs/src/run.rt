//! A restore carried out.
ghost use Rattle.std.specs.Prelude.{◌≡◌, [], IfOk, None};
ghost use Rattle.restore_plan.specs.Order.{plan_behind};
ghost use Rattle.restore_plan.specs.Serial.{serial, serial_until};
ghost use Rattle.restore_runs.specs.Endings.{ended, passed, halted, carried, ending};
ghost use Rattle.restore_runs.specs.Reports.{report, errors, stop_told};

use crate::report::{errors, write_report};
use crate::stopping::{stop_of, stop_told};
use cat_engine::Engine;
use cat_model::FkSet;
use plan_entries::placed_entries;
use restore_plan::{Entry, Planned};
use serial_restore::{Report, foreign_keys_change_nothing, restore_serial, restore_until};
use std::alloc::{AllocError, Global};
use toc_entry::Entry as Archived;
use tool_words::RestoreStop;

/// What is told of a restore.
#[derive(Drop)]
pub struct RestoreTold {
    /// The lines of its entries that were refused or skipped, and how many errors there were; or the line of the entry at
    /// which it stopped.
    pub report: Vec<u8>,
    /// How many errors it passed over: refused entries, and refused owner statements.
    pub errors: u64,
    /// The entry at which it stopped, if it did: its dump id and why.
    pub stopped: Option<RestoreStop>,
}

// What is told of a restore that went on behind refusals.
fn told_of(
    alloc: Global,
    teller: &[u8],
    entries: &[Archived],
    came: &Report,
) -> Result<RestoreTold, AllocError>
    ensures report { IfOk result (λ t. t.report.items ≡ report teller.now entries.now came.now.statuses came.now.notes) }
    ensures errors { IfOk result (λ t. t.errors ≡ errors came.now.statuses came.now.notes) }
    ensures on { IfOk result (λ t. t.stopped ≡ None) }
{
    let statuses = came.statuses.as_slice();
    let notes = came.notes.as_slice();
    let mut report = Vec::new(alloc);
    write_report(teller, entries, statuses, notes, &mut report)?;
    let errors = errors(statuses, notes)?;
    Ok(RestoreTold {
        report,
        errors,
        stopped: None,
    })
}

// Carries the entries of a plan out, all of them.
fn run_all(
    alloc: Global,
    engine: &mut Engine,
    teller: &[u8],
    entries: &[Archived],
    plan: &[Planned],
) -> Result<RestoreTold, AllocError>
    ensures { IfOk result (λ t. passed teller.now entries.now (serial engine.old.boot engine.old.named plan.now) ≡ ended engine.new.named t.report.items t.errors t.stopped) }
{
    let came = restore_serial(alloc, engine, plan)?;
    Ok(told_of(alloc, teller, entries, &came)?)
}

// What is told of a restore that stopped, or didn't.
fn told_stop(
    alloc: Global,
    teller: &[u8],
    stopped: Option<RestoreStop>,
) -> Result<RestoreTold, AllocError>
    ensures report { IfOk result (λ t. t.report.items ≡ stop_told teller.now stopped) }
    ensures errors { IfOk result (λ t. t.errors ≡ 0) }
    ensures stopped { IfOk result (λ t. t.stopped ≡ stopped) }
{
    match stop_told(alloc, teller, &stopped) {
        Ok(report) => Ok(RestoreTold {
            report,
            errors: 0,
            stopped,
        }),
        Err(error) => {
            drop(stopped);
            Err(error)
        }
    }
}

// Carries the entries of a plan out, up to the first statement that is refused.
fn run_to_stop(
    alloc: Global,
    engine: &mut Engine,
    teller: &[u8],
    plan: &[Planned],
) -> Result<RestoreTold, AllocError>
    ensures { IfOk result (λ t. halted teller.now (serial_until engine.old.boot engine.old.named plan.now) ≡ ended engine.new.named t.report.items t.errors t.stopped) }
{
    let note = restore_until(alloc, engine, plan)?;
    let stopped = stop_of(alloc, note)?;
    Ok(told_stop(alloc, teller, stopped)?)
}

// The entries in their places. One worker doesn't look at which of them may run at once, so no foreign keys are given.
fn places_of(alloc: Global, wanted: Vec<Entry>) -> Result<Vec<Planned>, AllocError>
    ensures { IfOk result (λ v. v.items ≡ plan_behind [] [] wanted.items) }
{
    placed_entries(alloc, FkSet::new(alloc), wanted)
}

// Carries the entries of a plan out, all of them or up to the first statement that is refused.
fn run_plan(
    alloc: Global,
    engine: &mut Engine,
    teller: &[u8],
    entries: &[Archived],
    plan: &[Planned],
    stop: bool,
) -> Result<RestoreTold, AllocError>
    ensures { IfOk result (λ t. carried stop teller.now engine.old.boot entries.now plan.now engine.old.named ≡ ended engine.new.named t.report.items t.errors t.stopped) }
{
    if stop {
        run_to_stop(alloc, engine, teller, plan)
    } else {
        run_all(alloc, engine, teller, entries, plan)
    }
}

/// Carries out the entries of a restore on a catalogue, one after another in the order of its list: all of them, where an
/// entry is skipped whose dependency was refused or skipped; or, where `stop` is set, up to the first statement that is
/// refused, owner statements too. The wanted entries are the same entries as statements, as `wanted_entries` gives them.
/// `teller` is the name of the tool, with which each line of the report begins.
///
/// The error is that memory ran out; some of the statements have then been carried out.
/// <https://www.postgresql.org/docs/16/app-pgrestore.html>
pub fn run_entries(
    alloc: Global,
    engine: &mut Engine,
    teller: &[u8],
    entries: &[Archived],
    wanted: Vec<Entry>,
    stop: bool,
) -> Result<RestoreTold, AllocError>
    ensures { IfOk result (λ t. ending stop teller.now engine.old.boot entries.now wanted.items engine.old.named ≡ ended engine.new.named t.report.items t.errors t.stopped) }
{
    foreign_keys_change_nothing();
    let plan = places_of(alloc, wanted)?;
    run_plan(alloc, engine, teller, entries, &plan, stop)
}

//! A restore carried out on its opening.
ghost use Rattle.std.specs.Prelude.{◌≡◌, IfErr, IfOk};
ghost use Rattle.openings.specs.Openings.{export_named};
ghost use Rattle.script_runs.specs.Writing.{IsUnwritten};
ghost use Rattle.restore_runs.specs.Endings.{ending};
ghost use Rattle.restore_folders.specs.Seen.{work_seen};
ghost use Rattle.restores_sound.specs.Export.{CanBeExported};
ghost use Rattle.restore_folders.specs.Works.{stops, ending_of, IsReady};
ghost use Rattle.restore_folders.specs.Written.{is_written, Leaves, LeavesEnding};

use crate::refusal::OnRefusal;
use crate::work::RestoreWork;
use cat_engine::Engine;
use cat_rows::Catalogue;
use eng_map::NamedMap;
use restore_plan::Entry;
use restore_runs::{RestoreTold, run_entries};
use saved_folders::ExportTexts;
use script_runs::named_texts;
use std::alloc::Global;
use toc_entry::Entry as Archived;
use tool_words::{Outcome, RestoreStop};

/// What a restore leaves of an opening, and what is told of it.
#[derive(Drop)]
pub struct RestoreRun {
    /// The texts of a folder that stands for what it leaves; `None` where it stopped and is undone.
    pub texts: Option<ExportTexts>,
    /// The lines of its entries that were refused or skipped, and how many errors there were; or the line of the entry at
    /// which it stopped.
    pub report: Vec<u8>,
    /// How many errors it passed over: refused entries, and refused owner statements.
    pub errors: u64,
    /// The entry at which it stopped, if it did: its dump id and why.
    pub stopped: Option<RestoreStop>,
}

// The texts of what an engine holds, where they are written.
fn texts_for(
    alloc: Global,
    named: &NamedMap,
    opening: &Catalogue,
    how: OnRefusal,
    stopped: &Option<RestoreStop>,
) -> Result<Option<ExportTexts>, Outcome>
    requires { CanBeExported opening.now named.now }
    ensures leaves { IfOk result (Leaves opening.now (is_written how stopped.now) named.now) }
    ensures unwritten { IfErr result (IsUnwritten opening.now named.now) }
{
    if how.writes(stopped) {
        Ok(Some(named_texts(alloc, named, opening)?))
    } else {
        Ok(None)
    }
}

// The texts of what an engine holds, with what was told on the way.
fn with_texts(
    alloc: Global,
    named: &NamedMap,
    opening: &Catalogue,
    how: OnRefusal,
    told: RestoreTold,
) -> Result<RestoreRun, Outcome>
    requires { CanBeExported opening.now named.now }
    ensures leaves { IfOk result (λ run. Leaves opening.now (is_written how told.stopped) named.now run.texts) }
    ensures report { IfOk result (λ run. run.report.items ≡ told.report.items) }
    ensures errors { IfOk result (λ run. run.errors ≡ told.errors) }
    ensures stopped { IfOk result (λ run. run.stopped ≡ told.stopped) }
    ensures unwritten { IfErr result (IsUnwritten opening.now named.now) }
{
    match texts_for(alloc, named, opening, how, &told.stopped) {
        Ok(texts) => Ok(RestoreRun {
            texts,
            report: told.report,
            errors: told.errors,
            stopped: told.stopped,
        }),
        Err(outcome) => {
            drop(told);
            Err(outcome)
        }
    }
}

// Carries out the entries on an engine, which began as this opening.
fn run_on(
    alloc: Global,
    engine: &mut Engine,
    opening: &Catalogue,
    entries: &[Archived],
    wanted: Vec<Entry>,
    how: OnRefusal,
    teller: &[u8],
) -> Result<RestoreRun, Outcome>
    requires { CanBeExported opening.now (ending (stops how) teller.now engine.old.boot entries.now wanted.items engine.old.named).left }
    ensures leaves { IfOk result (λ run. LeavesEnding opening.now how (ending (stops how) teller.now engine.old.boot entries.now wanted.items engine.old.named) run.texts) }
    ensures report { IfOk result (λ run. run.report.items ≡ (ending (stops how) teller.now engine.old.boot entries.now wanted.items engine.old.named).told) }
    ensures errors { IfOk result (λ run. run.errors ≡ (ending (stops how) teller.now engine.old.boot entries.now wanted.items engine.old.named).errors) }
    ensures stopped { IfOk result (λ run. run.stopped ≡ (ending (stops how) teller.now engine.old.boot entries.now wanted.items engine.old.named).stopped) }
    ensures unwritten { IfErr result (IsUnwritten opening.now (ending (stops how) teller.now engine.old.boot entries.now wanted.items engine.old.named).left) }
{
    let told = run_entries(alloc, engine, teller, entries, wanted, how.stops())?;
    with_texts(alloc, engine.named(), opening, how, told)
}

/// Carries out a restore on its opening, with one worker: its entries one after another, in their order. What they leave
/// becomes the texts of a folder, but where the restore stopped and is undone. `teller` is the name of the tool, with which
/// each line of the report begins. The work's role is the opening's of oid 10, and its statements are such as are read.
///
/// # Errors
///
/// `TooLarge` where the files of what they leave would be over a limit of reading, `OutOfProfile(Unbuilt)` where no oid is left
/// for what is new, or `Memory`.
pub fn run_work(
    alloc: Global,
    work: RestoreWork,
    how: OnRefusal,
    teller: &[u8],
) -> Result<RestoreRun, Outcome>
    requires { IsReady (work_seen work) }
    ensures leaves { IfOk result (λ run. LeavesEnding work.opening.cat how (ending_of how teller.now (work_seen work)) run.texts) }
    ensures report { IfOk result (λ run. run.report.items ≡ (ending_of how teller.now (work_seen work)).told) }
    ensures errors { IfOk result (λ run. run.errors ≡ (ending_of how teller.now (work_seen work)).errors) }
    ensures stopped { IfOk result (λ run. run.stopped ≡ (ending_of how teller.now (work_seen work)).stopped) }
    ensures unwritten { IfErr result (IsUnwritten work.opening.cat (ending_of how teller.now (work_seen work)).left) }
{
    let RestoreWork {
        opening,
        boot,
        entries,
        wanted,
    } = work;
    let (export, named) = opening.into_parts();
    let mut engine = Engine::new(alloc, named, boot);
    run_on(
        alloc,
        &mut engine,
        export.catalogue().rows(),
        &entries,
        wanted,
        how,
        teller,
    )
}

//! All of an archive, restored into a folder.
ghost use Rattle.std.specs.Prelude.{◌≡◌, Some, IfErr, IfOk, IsSome, IfSome};
ghost use Rattle.dump_ports.specs.Tree.{Tree};
ghost use Rattle.restore_folders.specs.declared.refusal.OnRefusal.TheVariants.{GoOn};
ghost use Rattle.restore_folders.specs.Seen.{work_seen};
ghost use Rattle.restore_folders.specs.Works.{ending_of, IsReady};
ghost use Rattle.restore_input.specs.Answers.{input_seen};
ghost use Rattle.restore_outcomes.specs.Told.{told};
ghost use Rattle.restore_tools.specs.Standing.{CountsReads, CountsWrites};
ghost use Rattle.script_runs.specs.Writing.{IsUnwritten, StandFor};
ghost use Rattle.tool_words.specs.Answers.{Gives, CountsRead};
ghost use Rattle.clone_restores.specs.Due.{all_options, all_taken, all_work, archive_due};
ghost use Rattle.clone_restores.specs.Standing.{IsAnswer, WasRestored, IsNotRestored};

use crate::restored::{Restored, finish};
use cat_model::{Items, Sections};
use copy_text::Text;
use dump_ports::{Files, Sink};
use entry_choices::Options;
use restore_folders::{OnRefusal, RestoreRun, RestoreWork, read_work, run_work};
use restore_input::{RestoreInput, read_restore};
use restore_outcomes::text_outcome;
use restore_texts::{ArchiveFormat, TextFault};
use std::alloc::Global;
use tool_words::Outcome;

// A fault as the program answers it.
fn told(answer: Result<RestoreInput, TextFault>) -> Result<RestoreInput, Outcome>
    ensures { result ≡ told answer }
{
    match answer {
        Ok(input) => Ok(input),
        Err(fault) => Err(text_outcome(fault)),
    }
}

// All entries, with owners or without.
fn all_options(alloc: Global, owners: bool) -> Options
    ensures { result ≡ all_options owners }
{
    Options {
        schema_only: false,
        data_only: false,
        schemas: Items::new(Vec::new(alloc)),
        not_schemas: Items::new(Vec::new(alloc)),
        tables: Items::new(Vec::new(alloc)),
        owners,
        grants: true,
        comments: true,
        sections: Sections {
            pre: true,
            rows: true,
            post: true,
        },
    }
}

// What is taken of an archive.
#[tactic(auto, unfolding(crate::specs::Due::all_taken))]
fn all_input<F: Files>(
    alloc: Global,
    files: &mut F,
    path: &Text,
    format: ArchiveFormat,
    owners: bool,
) -> Result<RestoreInput, Outcome>
    ensures due { (tree : Tree) → F.tree files.old ≡ Some tree → Gives input_seen result (all_taken owners path.now format tree) }
    ensures kept { F.tree files.new ≡ F.tree files.old }
    ensures read_count { CountsRead result (F.read_faults files.old) (F.read_faults files.new) }
    ensures write_count { F.write_faults files.new ≡ F.write_faults files.old }
{
    let options = all_options(alloc, owners);
    told(read_restore(alloc, files, path, Some(format), None, &options))
}

// Reads all that the restore works on: the archive, then the folder, then the entries as statements.
#[tactic(auto, unfolding(crate::specs::Due::all_work))]
fn archive_work<F: Files>(
    alloc: Global,
    files: &mut F,
    folder: &Text,
    path: &Text,
    format: ArchiveFormat,
    owners: bool,
) -> Result<RestoreWork, Outcome>
    ensures due { (tree : Tree) → F.tree files.old ≡ Some tree → Gives work_seen result (all_work owners folder.now path.now format tree) }
    ensures ready { IfOk result (λ work. IsReady (work_seen work)) }
    ensures kept { F.tree files.new ≡ F.tree files.old }
    ensures read_count { CountsRead result (F.read_faults files.old) (F.read_faults files.new) }
    ensures write_count { F.write_faults files.new ≡ F.write_faults files.old }
{
    let taken = all_input(alloc, files, path, format, owners)?;
    read_work(alloc, files, folder, taken, owners)
}

// What was restored by a run that went on behind refusals, which always leaves texts.
fn restored_of(run: RestoreRun) -> Restored
    requires { IsSome run.texts }
    ensures texts { IfSome run.texts (λ texts. result.texts ≡ texts) }
    ensures report { result.report.items ≡ run.report.items }
    ensures errors { result.errors ≡ run.errors }
{
    let RestoreRun {
        texts,
        report,
        errors,
        stopped,
    } = run;
    drop(stopped);
    match texts {
        Some(texts) => Restored {
            texts,
            report,
            errors,
        },
        None => unreachable!(),
    }
}

// Carries the entries out on the opening, and makes the texts of what they leave.
fn run_archive(alloc: Global, work: RestoreWork, teller: &[u8]) -> Result<Restored, Outcome>
    requires { IsReady (work_seen work) }
    ensures stand { IfOk result (λ restored. StandFor work.opening.cat (ending_of GoOn teller.now (work_seen work)).left restored.texts) }
    ensures told { IfOk result (λ restored. restored.report.items ≡ (ending_of GoOn teller.now (work_seen work)).told) }
    ensures errors { IfOk result (λ restored. restored.errors ≡ (ending_of GoOn teller.now (work_seen work)).errors) }
    ensures unwritten { IfErr result (IsUnwritten work.opening.cat (ending_of GoOn teller.now (work_seen work)).left) }
{
    let run = run_work(alloc, work, OnRefusal::GoOn, teller)?;
    Ok(restored_of(run))
}

/// Restores all of an archive into a folder.
pub(crate) fn restore_archive<F: Files, E: Sink>(
    alloc: Global,
    files: &mut F,
    err: &mut E,
    teller: &[u8],
    folder: &Text,
    path: &Text,
    format: ArchiveFormat,
    owners: bool,
) -> Result<Outcome, Outcome>
    ensures ends { IfOk result IsAnswer }
    ensures done { IfOk result (λ answer. (tree : Tree) → F.tree files.old ≡ Some tree → WasRestored (archive_due teller.now owners folder.now path.now format tree) answer (F.tree files.old) (F.tree files.new) (E.written err.old) (E.written err.new)) }
    ensures undone { IfErr result (λ outcome. (tree : Tree) → F.tree files.old ≡ Some tree → IsNotRestored outcome (archive_due teller.now owners folder.now path.now format tree) (F.tree files.old) (F.tree files.new) (E.written err.old) (E.written err.new)) }
    ensures read_count { CountsReads result (F.read_faults files.old) (F.read_faults files.new) }
    ensures write_count { CountsWrites result (F.write_faults files.old) (F.write_faults files.new) (E.faults err.old) (E.faults err.new) }
{
    let work = archive_work(alloc, files, folder, path, format, owners)?;
    finish(alloc, files, err, folder, run_archive(alloc, work, teller))
}

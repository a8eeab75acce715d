//! pg_restore into a folder.
ghost use Rattle.std.specs.Prelude.{◌≡◌, Ok, Some, IfErr, IfOk, OnErr, OnOk};
ghost use Rattle.dump_ports.specs.Tree.{Tree};
ghost use Rattle.restore_folders.specs.Seen.{work_seen};
ghost use Rattle.restore_folders.specs.Works.{IsReady};
ghost use Rattle.tool_words.specs.Answers.{IsRefusal, IsTold};
ghost use Rattle.restore_tools.specs.Due.{restoring, restore_due, answer_due};
ghost use Rattle.restore_tools.specs.Standing.{IsAnswer, IsCarriedOut, WasRestored, IsAnswerDue, IsUnread, IsCutOff, HasCut, CountsReads, CountsWrites};

use crate::asked::refusal_of;
use crate::input::read_all;
use crate::telling::tell_run;
use command_line::RestoreWords;
use copy_text::Text;
use dump_ports::{Files, Sink};
use restore_folders::{OnRefusal, RestoreWork, run_work, write_run};
use std::alloc::Global;
use tool_words::Outcome;

// Carries a restore out, writes the folder, then the report.
fn carry_out<F: Files, E: Sink>(
    alloc: Global,
    files: &mut F,
    err: &mut E,
    folder: &Text,
    work: RestoreWork,
    how: OnRefusal,
) -> Result<Outcome, Outcome>
    requires { IsReady (work_seen work) }
    ensures answers { IfOk result (λ answer. answer ≡ answer_due (restoring folder.now how (work_seen work))) }
    ensures ok { OnOk result (IsCarriedOut (restoring folder.now how (work_seen work)) (F.tree files.old) (F.tree files.new) (E.written err.old) (E.written err.new)) }
    ensures unread { IfErr result IsUnread }
    ensures refused { IfErr result (λ outcome. IsAnswerDue outcome (Ok (restoring folder.now how (work_seen work)))) }
    ensures kept { IfErr result (λ outcome. IsRefusal outcome → F.tree files.new ≡ F.tree files.old) }
    ensures silent { IfErr result (λ outcome. IsTold outcome → E.written err.new ≡ E.written err.old) }
    ensures cut { OnErr result (IsCutOff (restoring folder.now how (work_seen work)) (F.tree files.old) (F.tree files.new) (E.written err.old) (E.written err.new)) }
    ensures read_count { F.read_faults files.new ≡ F.read_faults files.old }
    ensures write_count { CountsWrites result (F.write_faults files.old) (F.write_faults files.new) (E.faults err.old) (E.faults err.new) }
{
    let run = run_work(alloc, work, how, b"pg_restore")?;
    match write_run(alloc, files, folder, &run) {
        Ok(()) => tell_run(err, run),
        Err(outcome) => {
            drop(run);
            Err(outcome)
        }
    }
}

/// Restores the archive at a path into a folder, or the custom archive that standard input was, where no path is named, as
/// pg_restore's words ask for it, with one worker.
///
/// All is read first: the archive, the list file, and of a directory the files of the entries with rows; then the folder,
/// and the texts of each entry. The first step that refuses gives the answer, and nothing is restored then. The entries are
/// carried out on the opening one after another. Behind a refusal the next one that may be restored is tried; with `-e` the
/// restore stops, and with `-1` it stops and is undone. Then the folder is written, once, and a report is told: a line for
/// each entry that was refused or skipped, and for each owner that isn't there, and how many errors there were; or the line
/// of the entry at which the restore stopped.
///
/// It answers `Done`, `WithErrors` with the number of errors, or `RestoreStopped`, which was told. Any other answer is the
/// caller's to tell: `Missing`, `TooLarge`, `BadArchive`, `BadList`, `BadExport`, `BadDefn` or `OutOfProfile` of the step
/// that refused; `TooLarge` or, where no oid is left, `OutOfProfile(Unbuilt)`, where what was restored isn't written; and `ReadFault`, `WriteFault`
/// and `Memory`. But for `WriteFault` and `Memory` nothing was written.
/// <https://www.postgresql.org/docs/16/app-pgrestore.html>
#[tactic(auto, unfolding(crate::specs::Due::restore_due))]
pub fn restore_folder<F: Files, E: Sink>(
    alloc: Global,
    files: &mut F,
    err: &mut E,
    folder: &Text,
    archive: &Option<Text>,
    input: &[u8],
    words: &RestoreWords,
) -> Result<Outcome, Outcome>
    ensures ends { IfOk result IsAnswer }
    ensures done { IfOk result (λ answer. (tree : Tree) → F.tree files.old ≡ Some tree → WasRestored (restore_due folder.now archive.now words.now input.now tree) answer (F.tree files.old) (F.tree files.new) (E.written err.old) (E.written err.new)) }
    ensures refused { IfErr result (λ outcome. (tree : Tree) → F.tree files.old ≡ Some tree → IsAnswerDue outcome (restore_due folder.now archive.now words.now input.now tree)) }
    ensures kept { IfErr result (λ outcome. IsRefusal outcome → F.tree files.new ≡ F.tree files.old) }
    ensures silent { IfErr result (λ outcome. IsTold outcome → E.written err.new ≡ E.written err.old) }
    ensures cut { OnErr result ((tree : Tree) → F.tree files.old ≡ Some tree → HasCut (restore_due folder.now archive.now words.now input.now tree) (F.tree files.old) (F.tree files.new) (E.written err.old) (E.written err.new)) }
    ensures read_count { CountsReads result (F.read_faults files.old) (F.read_faults files.new) }
    ensures write_count { CountsWrites result (F.write_faults files.old) (F.write_faults files.new) (E.faults err.old) (E.faults err.new) }
{
    let work = read_all(alloc, files, folder, archive, input, words)?;
    carry_out(alloc, files, err, folder, work, refusal_of(words))
}

//! What was restored in memory, written into its folder and told.
ghost use Rattle.std.specs.Prelude.{◌≡◌, None, Ok, IfErr, IfOk, OnErr, OnOk};
ghost use Rattle.dump_ports.specs.Faults.{CountsFault};
ghost use Rattle.restore_folders.specs.Works.{answer_by};
ghost use Rattle.restore_tools.specs.Standing.{IsUnread, CountsWrites};
ghost use Rattle.script_runs.specs.Writing.{IsUnwritten};
ghost use Rattle.tool_words.specs.Answers.{IsLate};
ghost use Rattle.tool_words.specs.Lines.{Appends, AppendsPart};
ghost use Rattle.clone_restores.specs.Due.{Restoration, answer_of};
ghost use Rattle.clone_restores.specs.Standing.{IsAnswer, IsUnfailed, IsMade, IsCarriedOut, IsCutOff, IsNotRestored};

use copy_text::Text;
use dump_ports::{Failed, Files, Sink};
use restore_folders::answer_by;
use saved_folders::{ExportTexts, write_texts};
use std::alloc::Global;
use tool_words::{Outcome, write_bytes};

/// What a folder is to hold, what is told of it, and how many errors there were.
#[derive(Drop)]
pub(crate) struct Restored {
    /// The texts of a folder that stands for what was made.
    pub(crate) texts: ExportTexts,
    /// The lines of what was refused.
    pub(crate) report: Vec<u8>,
    /// How many errors were passed over, of those that the answer counts.
    pub(crate) errors: u64,
}

// Tells the report, and gives the answer.
fn tell_restored<E: Sink>(err: &mut E, restored: Restored) -> Result<Outcome, Outcome>
    ensures answers { IfOk result (λ answer. answer ≡ answer_by restored.errors None) }
    ensures ok { OnOk result (Appends restored.report.items (E.written err.old) (E.written err.new)) }
    ensures failed { IfErr result (λ outcome. outcome ≡ Outcome.WriteFault) }
    ensures err { OnErr result (AppendsPart restored.report.items (E.written err.old) (E.written err.new)) }
    ensures count { CountsFault result (E.faults err.old) (E.faults err.new) }
{
    let Restored {
        texts,
        report,
        errors,
    } = restored;
    drop(texts);
    match write_bytes(err, &report) {
        Ok(()) => Ok(answer_by(errors, None)),
        Err(Failed) => Err(Outcome::WriteFault),
    }
}

// Writes the folder, then tells the report.
fn put_restored<F: Files, E: Sink>(
    alloc: Global,
    files: &mut F,
    err: &mut E,
    folder: &Text,
    restored: Restored,
) -> Result<Outcome, Outcome>
    ensures answers { IfOk result (λ answer. answer ≡ answer_by restored.errors None) }
    ensures ok { (plan : Restoration) → plan.folder ≡ folder.now → IsMade plan restored → OnOk result (IsCarriedOut plan (F.tree files.old) (F.tree files.new) (E.written err.old) (E.written err.new)) }
    ensures late { IfErr result IsLate }
    ensures cut { (plan : Restoration) → plan.folder ≡ folder.now → IsMade plan restored → OnErr result (IsCutOff plan (F.tree files.old) (F.tree files.new) (E.written err.old) (E.written err.new)) }
    ensures read_count { F.read_faults files.new ≡ F.read_faults files.old }
    ensures write_count { CountsWrites result (F.write_faults files.old) (F.write_faults files.new) (E.faults err.old) (E.faults err.new) }
{
    match write_texts(alloc, files, folder, &restored.texts) {
        Ok(()) => tell_restored(err, restored),
        Err(outcome) => {
            drop(restored);
            Err(outcome)
        }
    }
}

/// Writes what was restored into its folder, then tells the report, where it was made.
pub(crate) fn finish<F: Files, E: Sink>(
    alloc: Global,
    files: &mut F,
    err: &mut E,
    folder: &Text,
    made: Result<Restored, Outcome>,
) -> Result<Outcome, Outcome>
    requires { IfErr made IsUnfailed }
    ensures ends { IfOk result IsAnswer }
    ensures answers { (plan : Restoration) → IfOk made (IsMade plan) → IfOk result (λ answer. answer ≡ answer_of plan) }
    ensures ok { (plan : Restoration) → plan.folder ≡ folder.now → IfOk made (IsMade plan) → OnOk result (IsCarriedOut plan (F.tree files.old) (F.tree files.new) (E.written err.old) (E.written err.new)) }
    ensures undone { (plan : Restoration) → plan.folder ≡ folder.now → IfOk made (IsMade plan) → IfErr made (IsUnwritten plan.opening.cat plan.left) → IfErr result (λ outcome. IsNotRestored outcome (Ok plan) (F.tree files.old) (F.tree files.new) (E.written err.old) (E.written err.new)) }
    ensures unread { IfErr result IsUnread }
    ensures read_count { F.read_faults files.new ≡ F.read_faults files.old }
    ensures write_count { CountsWrites result (F.write_faults files.old) (F.write_faults files.new) (E.faults err.old) (E.faults err.new) }
{
    match made {
        Ok(restored) => put_restored(alloc, files, err, folder, restored),
        Err(outcome) => Err(outcome),
    }
}

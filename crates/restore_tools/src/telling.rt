//! The report of a restore, told.
ghost use Rattle.std.specs.Prelude.{◌≡◌, IfErr, IfOk, OnErr, OnOk};
ghost use Rattle.dump_ports.specs.Faults.{CountsFault};
ghost use Rattle.restore_folders.specs.Works.{answer_by};
ghost use Rattle.tool_words.specs.Lines.{Appends, AppendsPart};
ghost use Rattle.restore_tools.specs.Standing.{IsAnswer};

use dump_ports::{Failed, Sink};
use restore_folders::{RestoreRun, answer_by};
use tool_words::{Outcome, write_bytes};

// Writes a report, and gives the answer.
fn write_report<E: Sink>(err: &mut E, report: &[u8], answer: Outcome) -> Result<Outcome, Outcome>
    ensures answers { IfOk result (λ told. told ≡ answer) }
    ensures ok { OnOk result (Appends report.now (E.written err.old) (E.written err.new)) }
    ensures failed { IfErr result (λ outcome. outcome ≡ Outcome.WriteFault) }
    ensures err { OnErr result (AppendsPart report.now (E.written err.old) (E.written err.new)) }
    ensures count { CountsFault result (E.faults err.old) (E.faults err.new) }
{
    match write_bytes(err, report) {
        Ok(()) => Ok(answer),
        Err(Failed) => {
            drop(answer);
            Err(Outcome::WriteFault)
        }
    }
}

/// Tells what is to be told of a restore that has run, and gives its answer.
pub(crate) fn tell_run<E: Sink>(err: &mut E, run: RestoreRun) -> Result<Outcome, Outcome>
    ensures answers { IfOk result (λ answer. answer ≡ answer_by run.errors run.stopped) }
    ensures ok { OnOk result (Appends run.report.items (E.written err.old) (E.written err.new)) }
    ensures failed { IfErr result (λ outcome. outcome ≡ Outcome.WriteFault) }
    ensures err { OnErr result (AppendsPart run.report.items (E.written err.old) (E.written err.new)) }
    ensures count { CountsFault result (E.faults err.old) (E.faults err.new) }
{
    let RestoreRun {
        texts,
        report,
        errors,
        stopped,
    } = run;
    drop(texts);
    write_report(err, &report, answer_by(errors, stopped))
}

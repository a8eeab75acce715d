//! Putting a dump where it is asked for.
ghost use Rattle.std.specs.Prelude.{◌≡◌, ◌≤◌, ◌⊎◌, ℕ, List, Option, Some, None, Ok, Err, length, IfOk, IfErr, OnOk, OnErr};
ghost use Rattle.dump_ports.specs.Tree.{Tree};
ghost use Rattle.dump_ports.specs.Faults.{CountsFault};
ghost use Rattle.dump_files.specs.Needed.{unready};
ghost use Rattle.dump_files.specs.Stops.{CountsRead as CountsStopRead};
ghost use Rattle.dump_outputs.specs.Counts.{CountsOut};
ghost use Rattle.dump_outputs.specs.Forms.{IsClear};
ghost use Rattle.dump_plans.specs.Outcomes.{stop_outcome};
ghost use Rattle.dump_plans.specs.Plans.{dumping};
ghost use Rattle.tool_words.specs.Answers.{IsTold};
ghost use Rattle.tool_words.specs.Lines.{Appends, AppendsPart};
ghost use Rattle.tool_words.specs.declared.words.Teller.{Teller as TheTeller};
ghost use Rattle.dump_tools.specs.Due.{Puts, put_of, IsFinal, dump_answer, dump_line, IsCarriedOut, counts, CountsStep};
ghost use Rattle.dump_tools.specs.Outputs.{world};
ghost use Rattle.dump_tools.specs.Runs.{IsEarly, HasCut};

use command_line::Tool;
use dump_files::DumpStop;
use dump_outputs::{DumpForm, write_dump};
use dump_plans::{DumpPlan, stop_outcome};
use dump_ports::{Failed, Files, Sink};
use std::alloc::Global;
use toc_entry::Head;
use tool_words::{Outcome, Teller, tell};

/// Tells the line of what ended a dump, and gives it as the answer.
fn tell_end<E: Sink>(err: &mut E, outcome: Outcome) -> Result<Outcome, Outcome>
    ensures answers { IfOk result (λ answer. answer ≡ outcome) }
    ensures failed { IfErr result (λ answer. answer ≡ Outcome.WriteFault) }
    ensures ok { OnOk result (Appends (dump_line outcome) (E.written err.old) (E.written err.new)) }
    ensures err { OnErr result (AppendsPart (dump_line outcome) (E.written err.old) (E.written err.new)) }
    ensures count { CountsFault result (E.faults err.old) (E.faults err.new) }
{
    match tell(err, Teller::Tool(Tool::PgDump), &outcome) {
        Ok(()) => Ok(outcome),
        Err(Failed) => {
            drop(outcome);
            Err(Outcome::WriteFault)
        }
    }
}

/// What is answered where a dump ended on its way. A failed call and want of memory are told by the caller.
fn end_dump<E: Sink>(err: &mut E, stop: DumpStop) -> Result<Outcome, Outcome>
    ensures answers { IfOk result (λ answer. answer ≡ stop_outcome stop) }
    ensures ends { IfOk result IsFinal }
    ensures early { IfErr result IsEarly }
    ensures ok { OnOk result (Appends (dump_line (stop_outcome stop)) (E.written err.old) (E.written err.new)) }
    ensures silent { IfErr result (λ outcome. IsTold outcome → E.written err.new ≡ E.written err.old) }
    ensures cut { OnErr result ((E.written err.new ≡ E.written err.old) ⊎ (IsFinal (stop_outcome stop) × AppendsPart (dump_line (stop_outcome stop)) (E.written err.old) (E.written err.new))) }
    ensures counted { (r i w o r_after w_after o_after : ℕ) → CountsStopRead {X = Unit {0}} (Err stop) r r_after → CountsOut {X = Unit {0}} (Err stop) w w_after o o_after → CountsStep result (counts r i w o (E.faults err.old)) (counts r_after i w_after o_after (E.faults err.new)) }
{
    match stop {
        DumpStop::ReadFault => Err(Outcome::ReadFault),
        DumpStop::WriteFault => Err(Outcome::WriteFault),
        DumpStop::Memory => Err(Outcome::Memory),
        stop => tell_end(err, stop_outcome(stop)),
    }
}

/// Puts a dump where it is asked for. Where a row fails, some first part of what stands before it is put out, and its line
/// told.
#[tactic(auto, unfolding(crate::specs::Due::put_of))]
pub(crate) fn put_dump<F: Files, O: Sink, E: Sink>(
    alloc: Global,
    files: &mut F,
    out: &mut O,
    err: &mut E,
    form: &DumpForm,
    head: &Head,
    plan: &DumpPlan,
) -> Result<Outcome, Outcome>
    requires { length plan.now.files.items ≤ 200000 }
    ensures ends { IfOk result IsFinal }
    ensures early { IfErr result IsEarly }
    ensures answers { (tree : Tree) → F.tree files.old ≡ Some tree → unready tree plan.now.files.items ≡ None → IsClear form.now plan.now.files.items → IfOk result (λ answer. answer ≡ dump_answer (put_of tree form.now head.now (dumping plan.now)).bad) }
    ensures ok { (tree : Tree) → F.tree files.old ≡ Some tree → unready tree plan.now.files.items ≡ None → IsClear form.now plan.now.files.items → OnOk result (IsCarriedOut (Puts (put_of tree form.now head.now (dumping plan.now))) (F.tree files.old) (F.tree files.new) (O.written out.old) (O.written out.new) (E.written err.old) (E.written err.new)) }
    ensures silent { IfErr result (λ outcome. IsTold outcome → E.written err.new ≡ E.written err.old) }
    ensures cut { (tree : Tree) → F.tree files.old ≡ Some tree → unready tree plan.now.files.items ≡ None → IsClear form.now plan.now.files.items → OnErr result ((teller : TheTeller) (left : Option (List ℕ)) → HasCut None teller (Ok (Puts (put_of tree form.now head.now (dumping plan.now)))) (world (F.tree files.old) left (O.written out.old) (E.written err.old)) (world (F.tree files.new) left (O.written out.new) (E.written err.new))) }
    ensures counted { (inputs : ℕ) → CountsStep result (counts (F.read_faults files.old) inputs (F.write_faults files.old) (O.faults out.old) (E.faults err.old)) (counts (F.read_faults files.new) inputs (F.write_faults files.new) (O.faults out.new) (E.faults err.new)) }
{
    match write_dump(alloc, files, out, form, head, &plan.entries, &plan.files) {
        Ok(()) => Ok(Outcome::Done),
        Err(stop) => end_dump(err, stop),
    }
}

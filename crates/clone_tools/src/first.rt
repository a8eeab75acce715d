//! The first half of a clone: a dump, written to a file or a directory.
ghost use Rattle.std.specs.Prelude.{◌≡◌, ◌≤◌, ℕ, Some, Ok, length, IfErr, OnOk};
ghost use Rattle.dump_ports.specs.Tree.{Tree};
ghost use Rattle.dump_tools.specs.Targets.{IsOutside};
ghost use Rattle.dump_tools.specs.Due.{dump_due, counts, CountsStep};
ghost use Rattle.dump_tools.specs.Works.{plan_of_work, IsReady};
ghost use Rattle.clone_tools.specs.Halves.{HasPut, HasPutPart, HasNotPut};

use dump_outputs::write_dump;
use dump_plans::stop_outcome;
use dump_ports::{Files, Moment, Sink};
use dump_tools::{DumpWork, dump_work};
use std::alloc::Global;
use tool_words::{DumpAsked, Outcome};

// Writes a dump whose parts were read.
fn write_work<F: Files, O: Sink>(
    alloc: Global,
    files: &mut F,
    out: &mut O,
    work: &DumpWork,
) -> Result<(), Outcome>
    requires { length work.now.plan.files.items ≤ 200000 }
    ensures whole { (tree : Tree) → F.tree files.old ≡ Some tree → IsReady tree work.now → OnOk result (HasPut (Ok (plan_of_work tree work.now)) (F.tree files.old) (F.tree files.new) (O.written out.old) (O.written out.new)) }
    ensures part { (tree : Tree) → F.tree files.old ≡ Some tree → IsReady tree work.now → IfErr result (λ outcome. HasPutPart outcome (Ok (plan_of_work tree work.now)) (F.tree files.old) (F.tree files.new) (O.written out.old) (O.written out.new)) }
    ensures counted { (inputs lines : ℕ) → CountsStep result (counts (F.read_faults files.old) inputs (F.write_faults files.old) (O.faults out.old) lines) (counts (F.read_faults files.new) inputs (F.write_faults files.new) (O.faults out.new) lines) }
{
    match write_dump(
        alloc,
        files,
        out,
        &work.form,
        &work.head,
        &work.plan.entries,
        &work.plan.files,
    ) {
        Ok(()) => Ok(()),
        Err(stop) => Err(stop_outcome(stop)),
    }
}

/// Writes a dump to the file or the directory that is asked for. Its refusal, and the row that fails, are the caller's to tell.
pub(crate) fn put_first<F: Files, O: Sink>(
    alloc: Global,
    files: &mut F,
    out: &mut O,
    asked: DumpAsked,
    moment: Moment,
) -> Result<(), Outcome>
    requires { IsOutside asked.folder asked.target }
    ensures whole { (tree : Tree) → F.tree files.old ≡ Some tree → OnOk result (HasPut (dump_due asked moment tree) (F.tree files.old) (F.tree files.new) (O.written out.old) (O.written out.new)) }
    ensures part { (tree : Tree) → F.tree files.old ≡ Some tree → IfErr result (λ outcome. HasNotPut outcome (dump_due asked moment tree) (F.tree files.old) (F.tree files.new) (O.written out.old) (O.written out.new)) }
    ensures counted { (inputs lines : ℕ) → CountsStep result (counts (F.read_faults files.old) inputs (F.write_faults files.old) (O.faults out.old) lines) (counts (F.read_faults files.new) inputs (F.write_faults files.new) (O.faults out.new) lines) }
{
    let work = dump_work(alloc, files, asked, moment)?;
    write_work(alloc, files, out, &work)
}

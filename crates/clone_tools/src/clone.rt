//! pg_clone: a dump, and its restore.
ghost use Rattle.std.specs.Prelude.{◌≡◌, ℕ, List, Option, Some, None, false, IfOk, IfErr};
ghost use Rattle.command_line.specs.Checks.{lies_in};
ghost use Rattle.clone_tools.specs.Runs.{HasEnded, HasAnswered};
ghost use Rattle.clone_tools.specs.Due.{clone_due};
ghost use Rattle.clone_words.specs.declared.asked.CloneAsked.{CloneAsked as TheClone};
ghost use Rattle.clone_tools.specs.Halves.{AreHalves, IsUntold, IsTelling};
ghost use Rattle.dump_tools.specs.Targets.{IsOutside};
ghost use Rattle.dump_ports.specs.Tree.{Tree};
ghost use Rattle.dump_tools.specs.Due.{IsFinal, counts, Counted, CountsStep};
ghost use Rattle.dump_tools.specs.Outputs.{world};
ghost use Rattle.tool_words.specs.Messages.{teller_name};

use crate::first::put_first;
use clone_restores::restore_written;
use clone_words::CloneAsked;
use command_line::Format;
use copy_text::Text;
use dump_ports::{Failed, Files, Moment, Sink};
use dump_stmts::text_of;
use std::alloc::{AllocError, Global};
use tool_words::{DumpAsked, Outcome, Teller, tell};

// What the two halves of a clone take: the dump that is written, and the folder, the path, the format and whether owners are
// set for what is restored.
#[derive(Drop)]
struct Halves {
    dump: DumpAsked,
    target: Text,
    path: Text,
    format: Format,
    owners: bool,
}

// The halves of the clone that is asked for.
fn halves_of(alloc: Global, asked: CloneAsked) -> Result<Halves, AllocError>
    ensures { IfOk result (λ halves. AreHalves asked halves) }
{
    let CloneAsked {
        source,
        choice,
        format,
        archive,
        target,
    } = asked;
    let owners = !choice.no_owner;
    match text_of(alloc, archive.as_bytes()) {
        Ok(path) => Ok(Halves {
            dump: DumpAsked {
                folder: source,
                choice,
                format,
                target: Some(path),
            },
            target,
            path: archive,
            format,
            owners,
        }),
        Err(error) => {
            drop(choice);
            Err(error)
        }
    }
}

// Writes the dump, and restores what was written.
fn clone_halves<F: Files, O: Sink, E: Sink>(
    alloc: Global,
    files: &mut F,
    out: &mut O,
    err: &mut E,
    teller: Teller,
    halves: Halves,
    moment: Moment,
) -> Result<Outcome, Outcome>
    requires { IsOutside halves.dump.folder halves.dump.target }
    ensures ends { IfOk result IsFinal }
    ensures done { (asked : TheClone) → AreHalves asked halves → IfOk result (λ answer. (tree : Tree) (left : Option (List ℕ)) → F.tree files.old ≡ Some tree → HasEnded None teller (clone_due (teller_name teller) asked moment tree) answer (world (F.tree files.old) left (O.written out.old) (E.written err.old)) (world (F.tree files.new) left (O.written out.new) (E.written err.new))) }
    ensures untold { (asked : TheClone) → AreHalves asked halves → IfErr result (λ outcome. (tree : Tree) (left : Option (List ℕ)) → F.tree files.old ≡ Some tree → IsUntold teller (clone_due (teller_name teller) asked moment tree) outcome (world (F.tree files.old) left (O.written out.old) (E.written err.old)) (world (F.tree files.new) left (O.written out.new) (E.written err.new))) }
    ensures counted { (inputs : ℕ) → CountsStep result (counts (F.read_faults files.old) inputs (F.write_faults files.old) (O.faults out.old) (E.faults err.old)) (counts (F.read_faults files.new) inputs (F.write_faults files.new) (O.faults out.new) (E.faults err.new)) }
{
    let Halves {
        dump,
        target,
        path,
        format,
        owners,
    } = halves;
    let name = teller.name().as_bytes();
    match put_first(alloc, files, out, dump, moment) {
        Ok(()) => restore_written(alloc, files, err, name, format, owners, &target, &path),
        Err(outcome) => Err(outcome),
    }
}

// Dumps a folder, and restores what was written into another.
fn pg_clone<F: Files, O: Sink, E: Sink>(
    alloc: Global,
    files: &mut F,
    out: &mut O,
    err: &mut E,
    teller: Teller,
    asked: CloneAsked,
    moment: Moment,
) -> Result<Outcome, Outcome>
    requires source { lies_in asked.source asked.archive ≡ false }
    ensures ends { IfOk result IsFinal }
    ensures done { IfOk result (λ answer. (tree : Tree) (left : Option (List ℕ)) → F.tree files.old ≡ Some tree → HasEnded None teller (clone_due (teller_name teller) asked moment tree) answer (world (F.tree files.old) left (O.written out.old) (E.written err.old)) (world (F.tree files.new) left (O.written out.new) (E.written err.new))) }
    ensures untold { IfErr result (λ outcome. (tree : Tree) (left : Option (List ℕ)) → F.tree files.old ≡ Some tree → IsUntold teller (clone_due (teller_name teller) asked moment tree) outcome (world (F.tree files.old) left (O.written out.old) (E.written err.old)) (world (F.tree files.new) left (O.written out.new) (E.written err.new))) }
    ensures counted { (inputs : ℕ) → CountsStep result (counts (F.read_faults files.old) inputs (F.write_faults files.old) (O.faults out.old) (E.faults err.old)) (counts (F.read_faults files.new) inputs (F.write_faults files.new) (O.faults out.new) (E.faults err.new)) }
{
    match halves_of(alloc, asked) {
        Ok(halves) => clone_halves(alloc, files, out, err, teller, halves, moment),
        Err(AllocError) => Err(Outcome::Memory),
    }
}

/// Does a clone, and tells its answer where neither half did. The first half is that of pg_dump, and the second that of
/// pg_restore, or of psql for a script, over the files as they stand once the dump is written: where it refuses, the whole
/// archive stays. Each line begins with the teller's name.
pub(crate) fn run_clone<F: Files, O: Sink, E: Sink>(
    alloc: Global,
    files: &mut F,
    out: &mut O,
    err: &mut E,
    teller: Teller,
    asked: CloneAsked,
    moment: Moment,
) -> Outcome
    requires source { lies_in asked.source asked.archive ≡ false }
    ensures answered { (tree : Tree) (left : Option (List ℕ)) → F.tree files.old ≡ Some tree
        → HasAnswered None teller (clone_due (teller_name teller) asked moment tree) result (world (F.tree files.old) left (O.written out.old) (E.written err.old)) (world (F.tree files.new) left (O.written out.new) (E.written err.new)) (E.faults err.old) (E.faults err.new) }
    ensures counted { (inputs : ℕ) → Counted result (counts (F.read_faults files.old) inputs (F.write_faults files.old) (O.faults out.old) (E.faults err.old)) (counts (F.read_faults files.new) inputs (F.write_faults files.new) (O.faults out.new) (E.faults err.new)) }
{
    match pg_clone(alloc, files, out, err, teller, asked, moment) {
        Ok(answer) => answer,
        Err(outcome) => tell_outcome(err, teller, outcome),
    }
}

// Writes the line that tells an outcome, and gives the outcome back, or that it couldn't be written.
pub(crate) fn tell_outcome<E: Sink>(err: &mut E, teller: Teller, outcome: Outcome) -> Outcome
    ensures told { IsTelling teller outcome result (E.written err.old) (E.written err.new) (E.faults err.old) (E.faults err.new) }
{
    match tell(err, teller, &outcome) {
        Ok(()) => outcome,
        Err(Failed) => {
            drop(outcome);
            Outcome::WriteFault
        }
    }
}

//! The program.
ghost use Rattle.std.specs.Prelude.{◌≡◌, ◌⊎◌, Some, false};
ghost use Rattle.dump_ports.specs.Tree.{Tree};
ghost use Rattle.cat_model.specs.Values.{Bytes};
ghost use Rattle.tool_words.specs.Words.{reads_input};
ghost use Rattle.clone_words.specs.Words.{clone_in};
ghost use Rattle.dump_tools.specs.Due.{counts, NoneRose, Counted};
ghost use Rattle.dump_tools.specs.Inputs.{TellsLeft};
ghost use Rattle.dump_tools.specs.Outputs.{world};
ghost use Rattle.clone_tools.specs.Runs.{Ended, Answered};

use crate::clone::{run_clone, tell_outcome};
use clone_words::laws::a_clone_is_written_outside_of_its_folders;
use clone_words::{CloneAsked, clone_asked};
use copy_text::Text;
use dump_ports::{Files, Gate, Moment, Sink, Source};
use std::alloc::{AllocError, Global};
use tool_words::{Outcome, teller_of};

/// Does what the words ask for, over these files and streams, and answers what it came to.
///
/// What a call puts out is a list of outputs in order: files that are made and written, texts that are printed, texts that
/// are told on standard error; what it takes of standard input stands first among them. Where no count of faults rose, a run
/// that may come of the words, the moment, the files and the input has ended: all its outputs were put out, in order, and
/// its answer was given; or memory ran out. Any answer but `ReadFault`, `WriteFault` and `Memory` has all its outputs put
/// out. With those three some first outputs of such a run are whole, the next one is cut, and a first part of the answer's
/// own line stands on standard error; that of `Memory` or `ReadFault` where this line couldn't be told, so that the answer
/// is `WriteFault`. Standard input is read where the words ask for what reads it, and isn't used else.
///
/// A run of pg_clone is that of a dump into its archive, and behind it what may come of restoring this archive over the files
/// as they stand then: where that refuses, or is cut short, the archive is whole. Of other words it does what
/// `dump_tools::run_tools` does.
pub fn run_tools<F: Files, I: Source, O: Sink, E: Sink, G: Gate + Sync>(
    alloc: Global,
    words: &[Text],
    files: &mut F,
    input: &mut I,
    out: &mut O,
    err: &mut E,
    moment: Moment,
    gate: &G,
) -> Outcome
    ensures complete { (tree : Tree) (bytes : Bytes) → F.tree files.old ≡ Some tree → TellsLeft (reads_input words.now) (I.left input.old) bytes
        → NoneRose (counts (F.read_faults files.old) (I.faults input.old) (F.write_faults files.old) (O.faults out.old) (E.faults err.old)) (counts (F.read_faults files.new) (I.faults input.new) (F.write_faults files.new) (O.faults out.new) (E.faults err.new))
        → Ended words.now moment tree bytes result (world (F.tree files.old) (I.left input.old) (O.written out.old) (E.written err.old)) (world (F.tree files.new) (I.left input.new) (O.written out.new) (E.written err.new)) ⊎ (result ≡ Outcome.Memory) }
    ensures answered { (tree : Tree) (bytes : Bytes) → F.tree files.old ≡ Some tree → TellsLeft (reads_input words.now) (I.left input.old) bytes
        → Answered result words.now moment tree bytes (world (F.tree files.old) (I.left input.old) (O.written out.old) (E.written err.old)) (world (F.tree files.new) (I.left input.new) (O.written out.new) (E.written err.new)) (E.faults err.old) (E.faults err.new) }
    ensures counted { Counted result (counts (F.read_faults files.old) (I.faults input.old) (F.write_faults files.old) (O.faults out.old) (E.faults err.old)) (counts (F.read_faults files.new) (I.faults input.new) (F.write_faults files.new) (O.faults out.new) (E.faults err.new)) }
    ensures unread { reads_input words.now ≡ false → input.new ≡ input.old }
{
    match clone_asked(alloc, words) {
        Ok(asked) => run_asked(alloc, words, files, input, out, err, moment, gate, asked),
        Err(AllocError) => tell_outcome(err, teller_of(words), Outcome::Memory),
    }
}

// Does the clone that the words ask for, or what else they do.
fn run_asked<F: Files, I: Source, O: Sink, E: Sink, G: Gate + Sync>(
    alloc: Global,
    words: &[Text],
    files: &mut F,
    input: &mut I,
    out: &mut O,
    err: &mut E,
    moment: Moment,
    gate: &G,
    asked: Option<CloneAsked>,
) -> Outcome
    requires { asked ≡ clone_in words.now }
    ensures complete { (tree : Tree) (bytes : Bytes) → F.tree files.old ≡ Some tree → TellsLeft (reads_input words.now) (I.left input.old) bytes
        → NoneRose (counts (F.read_faults files.old) (I.faults input.old) (F.write_faults files.old) (O.faults out.old) (E.faults err.old)) (counts (F.read_faults files.new) (I.faults input.new) (F.write_faults files.new) (O.faults out.new) (E.faults err.new))
        → Ended words.now moment tree bytes result (world (F.tree files.old) (I.left input.old) (O.written out.old) (E.written err.old)) (world (F.tree files.new) (I.left input.new) (O.written out.new) (E.written err.new)) ⊎ (result ≡ Outcome.Memory) }
    ensures answered { (tree : Tree) (bytes : Bytes) → F.tree files.old ≡ Some tree → TellsLeft (reads_input words.now) (I.left input.old) bytes
        → Answered result words.now moment tree bytes (world (F.tree files.old) (I.left input.old) (O.written out.old) (E.written err.old)) (world (F.tree files.new) (I.left input.new) (O.written out.new) (E.written err.new)) (E.faults err.old) (E.faults err.new) }
    ensures counted { Counted result (counts (F.read_faults files.old) (I.faults input.old) (F.write_faults files.old) (O.faults out.old) (E.faults err.old)) (counts (F.read_faults files.new) (I.faults input.new) (F.write_faults files.new) (O.faults out.new) (E.faults err.new)) }
    ensures unread { reads_input words.now ≡ false → input.new ≡ input.old }
{
    a_clone_is_written_outside_of_its_folders();
    match asked {
        Some(asked) => run_clone(alloc, files, out, err, teller_of(words), asked, moment),
        None => dump_tools::run_tools(alloc, words, files, input, out, err, moment, gate),
    }
}

//! The tools of the command line.
ghost use Rattle.std.specs.Prelude.{◌≡◌, ℕ, ◌≤◌, ◌++◌, ◌⊎◌, List, Option, Some, None, true, false, option_map, IfOk, IfErr, OnOk, OnErr, Result, Ok, Err};
ghost use Rattle.tool_words.specs.declared.words.Teller.{Teller};
ghost use Rattle.dump_ports.specs.Tree.{Tree};
ghost use Rattle.dump_ports.specs.Faults.{CountsFault};
ghost use Rattle.tool_words.specs.Answers.{Gives, CountsRead, IsDue, IsLate, IsRefusal, IsTold};
ghost use Rattle.cat_model.specs.Values.{Bytes, Named};
ghost use Rattle.cat_same.specs.Verdicts.{IsVerdict, IsLeastDifference};
ghost use Rattle.tool_words.specs.Lines.{Appends, AppendsPart};
ghost use Rattle.tool_words.specs.Words.{is_input, reads_input};
ghost use Rattle.tool_words.specs.Messages.{outcome_line};
ghost use Rattle.schema_folders.specs.Statements.{are_taken};
ghost use Rattle.exports.specs.Exports.{export_of, texts_of};
ghost use Rattle.openings.specs.Openings.{export_named, opened_folder};
ghost use Rattle.dump_targets.specs.Targets.{IsOutside};
ghost use Rattle.dump_tools.specs.Due.{IsFinal, dump_due, second_due, compare_due, IsUnequal, due, IsAnswerDue, WasDue, counts, NoneRose, Counted, CountsStep};
ghost use Rattle.dump_tools.specs.Inputs.{where_read, TellsLeft};
ghost use Rattle.dump_tools.specs.Outputs.{world};
ghost use Rattle.dump_tools.specs.Runs.{IsEarly, read_by, StepTakes, HasCut, Ended, Answered};

use crate::dumps::dump_work;
use crate::printing::put_dump;
use crate::psql::psql;
use crate::restoring::{pg_restore, restore_into};
use cat_model::Key;
use cat_same::{Verdict, compare_maps};
use copy_text::Text;
use dump_ports::{Failed, Files, Gate, Moment, Sink, Source};
use dump_targets::laws::a_dump_is_written_outside_of_its_folder;
use exports::{Export, FolderTexts, read_texts};
use openings::{Opening, open_export, read_opening};
use same_folders::{have_one_opening, open_as_one, opens_alike};
use std::alloc::{AllocError, Global};
use tool_words::{
    Asked, Difference, DumpAsked, Outcome, Teller, read_asked, tell, teller_of, write_bytes,
};

/// Writes a report, or a script, to its stream, and gives the answer.
pub(crate) fn write_report<S: Sink>(
    stream: &mut S,
    report: &[u8],
    answer: Outcome,
) -> Result<Outcome, Outcome>
    requires { IsFinal answer }
    ensures answers { IfOk result (λ told. told ≡ answer) }
    ensures ends { IfOk result IsFinal }
    ensures ok { OnOk result (Appends report.now (S.written stream.old) (S.written stream.new)) }
    ensures failed { IfErr result (λ outcome. outcome ≡ Outcome.WriteFault) }
    ensures err { OnErr result (AppendsPart report.now (S.written stream.old) (S.written stream.new)) }
    ensures count { CountsFault result (S.faults stream.old) (S.faults stream.new) }
{
    match write_bytes(stream, report) {
        Ok(()) => Ok(answer),
        Err(Failed) => {
            drop(answer);
            Err(Outcome::WriteFault)
        }
    }
}

/// Puts the dump of a folder where it is asked for.
fn pg_dump<F: Files, O: Sink, E: Sink>(
    alloc: Global,
    files: &mut F,
    out: &mut O,
    err: &mut E,
    asked: DumpAsked,
    moment: Moment,
) -> Result<Outcome, Outcome>
    requires { IsOutside asked.folder asked.target }
    ensures ends { IfOk result IsFinal }
    ensures done { IfOk result (λ answer. (tree : Tree) → F.tree files.old ≡ Some tree → WasDue (dump_due asked moment tree) answer (F.tree files.old) (F.tree files.new) (O.written out.old) (O.written out.new) (E.written err.old) (E.written err.new)) }
    ensures refused { IfErr result (λ outcome. (tree : Tree) → F.tree files.old ≡ Some tree → IsDue outcome (dump_due asked moment tree)) }
    ensures kept { IfErr result (λ outcome. (IsEarly outcome → ⊥) → F.tree files.new ≡ F.tree files.old) }
    ensures quiet { IfErr result (λ outcome. (IsEarly outcome → ⊥) → O.written out.new ≡ O.written out.old) }
    ensures silent { IfErr result (λ outcome. IsTold outcome → E.written err.new ≡ E.written err.old) }
    ensures cut { OnErr result ((teller : Teller) (tree : Tree) (left : Option (List ℕ)) → F.tree files.old ≡ Some tree → HasCut None teller (dump_due asked moment tree) (world (F.tree files.old) left (O.written out.old) (E.written err.old)) (world (F.tree files.new) left (O.written out.new) (E.written err.new))) }
    ensures counted { (inputs : ℕ) → CountsStep result (counts (F.read_faults files.old) inputs (F.write_faults files.old) (O.faults out.old) (E.faults err.old)) (counts (F.read_faults files.new) inputs (F.write_faults files.new) (O.faults out.new) (E.faults err.new)) }
{
    let work = dump_work(alloc, files, asked, moment)?;
    put_dump(alloc, files, out, err, &work.form, &work.head, &work.plan)
}

/// Compares what two folders stand for by names, with the rows of their tables.
fn pg_catcmp<F: Files>(
    alloc: Global,
    files: &mut F,
    first: &Text,
    second: &Text,
) -> Result<Outcome, Outcome>
    ensures ends { IfOk result IsFinal }
    ensures done { IfOk result (λ answer. (tree : Tree) (printed told : Option (List ℕ)) → F.tree files.old ≡ Some tree → WasDue (compare_due first.now second.now tree) answer (F.tree files.old) (F.tree files.new) printed printed told told) }
    ensures refused { IfErr result (λ outcome. (tree : Tree) → F.tree files.old ≡ Some tree → IsAnswerDue outcome (compare_due first.now second.now tree)) }
    ensures kept { F.tree files.new ≡ F.tree files.old }
    ensures read_count { CountsRead result (F.read_faults files.old) (F.read_faults files.new) }
    ensures write_count { F.write_faults files.new ≡ F.write_faults files.old }
{
    if open_as_one(alloc, files, first, second)? {
        return Ok(Outcome::Done);
    }
    compare_folders(alloc, files, first, second)
}

/// The same of folders that aren't told to be one by their files alone: the texts of the first are read and held.
fn compare_folders<F: Files>(
    alloc: Global,
    files: &mut F,
    first: &Text,
    second: &Text,
) -> Result<Outcome, Outcome>
    ensures ends { IfOk result IsFinal }
    ensures done { IfOk result (λ answer. (tree : Tree) (printed told : Option (List ℕ)) → F.tree files.old ≡ Some tree → WasDue (compare_due first.now second.now tree) answer (F.tree files.old) (F.tree files.new) printed printed told told) }
    ensures refused { IfErr result (λ outcome. (tree : Tree) → F.tree files.old ≡ Some tree → IsAnswerDue outcome (compare_due first.now second.now tree)) }
    ensures kept { F.tree files.new ≡ F.tree files.old }
    ensures read_count { CountsRead result (F.read_faults files.old) (F.read_faults files.new) }
    ensures write_count { F.write_faults files.new ≡ F.write_faults files.old }
{
    let texts = read_texts(alloc, files, first)?;
    compare_texts(alloc, files, first, texts, second)
}

/// Compares the second folder with the catalogue and the texts that were read of the first. Where both hold the same texts, and
/// these are rows that meet their tables, they are the same, and no map is made of either.
fn compare_texts<F: Files>(
    alloc: Global,
    files: &mut F,
    first: &Text,
    texts: FolderTexts,
    second: &Text,
) -> Result<Outcome, Outcome>
    ensures ends { IfOk result IsFinal }
    ensures done { IfOk result (λ answer. (tree : Tree) (printed told : Option (List ℕ)) → F.tree files.old ≡ Some tree → texts_of first.now tree ≡ Ok texts → WasDue (compare_due first.now second.now tree) answer (F.tree files.old) (F.tree files.new) printed printed told told) }
    ensures refused { IfErr result (λ outcome. (tree : Tree) → F.tree files.old ≡ Some tree → texts_of first.now tree ≡ Ok texts → IsAnswerDue outcome (compare_due first.now second.now tree)) }
    ensures kept { F.tree files.new ≡ F.tree files.old }
    ensures read_count { CountsRead result (F.read_faults files.old) (F.read_faults files.new) }
    ensures write_count { F.write_faults files.new ≡ F.write_faults files.old }
{
    if have_one_opening(alloc, files, first, &texts, second)? {
        return Ok(Outcome::Done);
    }
    let export = texts.into_export(alloc)?;
    compare_export(alloc, files, first, export, second)
}

/// Compares the second folder with the export that was read of the first, whose rows have to meet their tables.
fn compare_export<F: Files>(
    alloc: Global,
    files: &mut F,
    first: &Text,
    export: Export,
    second: &Text,
) -> Result<Outcome, Outcome>
    ensures ends { IfOk result IsFinal }
    ensures done { IfOk result (λ answer. (tree : Tree) (printed told : Option (List ℕ)) → F.tree files.old ≡ Some tree → export_of first.now tree ≡ Ok export → WasDue (compare_due first.now second.now tree) answer (F.tree files.old) (F.tree files.new) printed printed told told) }
    ensures refused { IfErr result (λ outcome. (tree : Tree) → F.tree files.old ≡ Some tree → export_of first.now tree ≡ Ok export → IsAnswerDue outcome (compare_due first.now second.now tree)) }
    ensures kept { F.tree files.new ≡ F.tree files.old }
    ensures read_count { CountsRead result (F.read_faults files.old) (F.read_faults files.new) }
    ensures write_count { F.write_faults files.new ≡ F.write_faults files.old }
{
    let one = open_export(alloc, export)?;
    let answer = compare_with(alloc, files, first, &one, second);
    drop(one);
    answer
}

/// Compares the second folder with what was read of the first. Where both hold the same texts nothing is read of the second
/// but these, and they are the same.
#[tactic(auto, unfolding(crate::specs::Due::second_due))]
fn compare_with<F: Files>(
    alloc: Global,
    files: &mut F,
    first: &Text,
    one: &Opening,
    second: &Text,
) -> Result<Outcome, Outcome>
    ensures ends { IfOk result IsFinal }
    ensures done { IfOk result (λ answer. (tree : Tree) (printed told : Option (List ℕ)) → F.tree files.old ≡ Some tree → opened_folder first.now tree ≡ Ok one.now → WasDue (second_due one.now second.now tree) answer (F.tree files.old) (F.tree files.new) printed printed told told) }
    ensures refused { IfErr result (λ outcome. (tree : Tree) → F.tree files.old ≡ Some tree → IsAnswerDue outcome (second_due one.now second.now tree)) }
    ensures kept { F.tree files.new ≡ F.tree files.old }
    ensures read_count { CountsRead result (F.read_faults files.old) (F.read_faults files.new) }
    ensures write_count { F.write_faults files.new ≡ F.write_faults files.old }
{
    if opens_alike(alloc, files, first, one, second)? {
        return Ok(Outcome::Done);
    }
    compare_second(alloc, files, one, second)
}

/// Reads the second folder and compares it with what was read of the first.
#[tactic(auto, unfolding(crate::specs::Due::second_due))]
fn compare_second<F: Files>(
    alloc: Global,
    files: &mut F,
    one: &Opening,
    second: &Text,
) -> Result<Outcome, Outcome>
    ensures ends { IfOk result IsFinal }
    ensures done { IfOk result (λ answer. (tree : Tree) (printed told : Option (List ℕ)) → F.tree files.old ≡ Some tree → WasDue (second_due one.now second.now tree) answer (F.tree files.old) (F.tree files.new) printed printed told told) }
    ensures refused { IfErr result (λ outcome. (tree : Tree) → F.tree files.old ≡ Some tree → IsAnswerDue outcome (second_due one.now second.now tree)) }
    ensures kept { F.tree files.new ≡ F.tree files.old }
    ensures read_count { CountsRead result (F.read_faults files.old) (F.read_faults files.new) }
    ensures write_count { F.write_faults files.new ≡ F.write_faults files.old }
{
    let other = read_opening(alloc, files, second)?;
    let answer = compare_both(alloc, one, &other);
    drop(other);
    answer
}

/// Compares two openings, and tells the least key at which they differ.
fn compare_both(alloc: Global, one: &Opening, other: &Opening) -> Result<Outcome, Outcome>
    ensures ends { IfOk result IsFinal }
    ensures done { IfOk result (λ answer. (answer ≡ Outcome.Done) × (export_named one.now ≡ export_named other.now)) }
    ensures unequal { IfErr result (λ outcome. IsUnequal outcome (export_named one.now) (export_named other.now)) }
    ensures count { (n : ℕ) → CountsRead result n n }
{
    let verdict = compare(one, other)?;
    told_verdict(alloc, verdict)
}

/// The answer of a comparison.
fn told_verdict(alloc: Global, verdict: Verdict) -> Result<Outcome, Outcome>
    ensures ends { IfOk result IsFinal }
    ensures done { (a b : Named) → IsVerdict a b verdict → IfOk result (λ answer. (answer ≡ Outcome.Done) × (a ≡ b)) }
    ensures unequal { (a b : Named) → IsVerdict a b verdict → IfErr result (λ outcome. IsUnequal outcome a b) }
    ensures count { (n : ℕ) → CountsRead result n n }
{
    match verdict {
        Verdict::Same => Ok(Outcome::Done),
        Verdict::Differs(key) => Err(differs_at(alloc, key)),
    }
}

/// That two catalogues differ at a key, or that memory ran out.
fn differs_at(alloc: Global, key: Key) -> Outcome
    ensures unequal { (a b : Named) → IsLeastDifference a b key → IsUnequal result a b }
    ensures count { (n : ℕ) → CountsRead {X = Unit {0}} (Err result) n n }
{
    match Difference::new(alloc, key) {
        Ok(difference) => Outcome::Differs(difference),
        Err(_) => Outcome::Memory,
    }
}

/// Compares what two openings stand for by names.
fn compare(one: &Opening, other: &Opening) -> Result<Verdict, AllocError>
    ensures { IfOk result (λ verdict. IsVerdict (export_named one.now) (export_named other.now) verdict) }
{
    compare_maps(one.named(), other.named())
}

/// Does what the words ask for.
fn perform<F: Files, I: Source, O: Sink, E: Sink>(
    alloc: Global,
    words: &[Text],
    files: &mut F,
    input: &mut I,
    out: &mut O,
    err: &mut E,
    moment: Moment,
) -> Result<Outcome, Outcome>
    ensures ends { IfOk result IsFinal }
    ensures done { IfOk result (λ answer. (tree : Tree) (bytes : Bytes) → F.tree files.old ≡ Some tree → TellsLeft (reads_input words.now) (I.left input.old) bytes → WasDue (due words.now moment tree bytes) answer (F.tree files.old) (F.tree files.new) (O.written out.old) (O.written out.new) (E.written err.old) (E.written err.new)) }
    ensures refused { IfErr result (λ outcome. (tree : Tree) (bytes : Bytes) → F.tree files.old ≡ Some tree → TellsLeft (reads_input words.now) (I.left input.old) bytes → IsAnswerDue outcome (due words.now moment tree bytes)) }
    ensures kept { IfErr result (λ outcome. IsRefusal outcome → (IsEarly outcome → ⊥) → F.tree files.new ≡ F.tree files.old) }
    ensures quiet { IfErr result (λ outcome. (IsEarly outcome → ⊥) → O.written out.new ≡ O.written out.old) }
    ensures unread { reads_input words.now ≡ false → input.new ≡ input.old }
    ensures taken { (bytes : Bytes) → TellsLeft (reads_input words.now) (I.left input.old) bytes → StepTakes result (read_by words.now bytes) (I.left input.old) (I.left input.new) }
    ensures cut { OnErr result ((teller : Teller) (tree : Tree) (bytes : Bytes) → F.tree files.old ≡ Some tree → TellsLeft (reads_input words.now) (I.left input.old) bytes → HasCut (read_by words.now bytes) teller (due words.now moment tree bytes) (world (F.tree files.old) (I.left input.old) (O.written out.old) (E.written err.old)) (world (F.tree files.new) (I.left input.new) (O.written out.new) (E.written err.new))) }
    ensures silent { IfErr result (λ outcome. IsTold outcome → E.written err.new ≡ E.written err.old) }
    ensures counted { CountsStep result (counts (F.read_faults files.old) (I.faults input.old) (F.write_faults files.old) (O.faults out.old) (E.faults err.old)) (counts (F.read_faults files.new) (I.faults input.new) (F.write_faults files.new) (O.faults out.new) (E.faults err.new)) }
{
    a_dump_is_written_outside_of_its_folder();
    let asked = read_asked(alloc, words)?;
    match asked {
        Asked::Psql {
            folder,
            script,
            stop,
        } => psql(alloc, files, input, err, &folder, &script, stop),
        Asked::Dump(asked) => pg_dump(alloc, files, out, err, asked, moment),
        Asked::Archive(asked) => pg_restore(alloc, files, input, out, &asked),
        Asked::Restore(asked) => restore_into(alloc, files, input, err, &asked),
        Asked::Compare { first, second } => pg_catcmp(alloc, files, &first, &second),
    }
}

/// Writes the line that tells an outcome, and gives the outcome back.
fn tell_outcome<E: Sink>(err: &mut E, teller: Teller, outcome: Outcome) -> Result<Outcome, Failed>
    ensures same { IfOk result (λ told. told ≡ outcome) }
    ensures ok { OnOk result (Appends (outcome_line teller outcome) (E.written err.old) (E.written err.new)) }
    ensures err { OnErr result (AppendsPart (outcome_line teller outcome) (E.written err.old) (E.written err.new)) }
    ensures count { CountsFault result (E.faults err.old) (E.faults err.new) }
{
    match tell(err, teller, &outcome) {
        Ok(()) => Ok(outcome),
        Err(Failed) => {
            drop(outcome);
            Err(Failed)
        }
    }
}

/// Does what the words ask for, over these files and streams, and answers what it came to.
///
/// What a call puts out is a list of outputs in order: files that are made and written, texts that are printed, texts that
/// are told on standard error; what it takes of standard input stands first among them. Where no count of faults rose, a run
/// that may come of the words, the moment, the files and the input has ended: all its outputs were put out, in order, and
/// its answer was given; or memory ran out. Any answer but `ReadFault`, `WriteFault` and `Memory` has all its outputs put
/// out. With those three some first outputs of such a run are whole, the next one is cut, and a first part of the answer's
/// own line stands on standard error; that of `Memory` or `ReadFault` where this line couldn't be told, so that the answer
/// is `WriteFault`. Standard input is read where the words ask for what reads it, and isn't used else.
pub fn run_tools<F: Files, I: Source, O: Sink, E: Sink, G: Gate + Sync>(
    alloc: Global,
    words: &[Text],
    files: &mut F,
    input: &mut I,
    out: &mut O,
    err: &mut E,
    moment: Moment,
    _gate: &G,
) -> Outcome
    ensures complete { (tree : Tree) (bytes : Bytes) → F.tree files.old ≡ Some tree → TellsLeft (reads_input words.now) (I.left input.old) bytes
        → NoneRose (counts (F.read_faults files.old) (I.faults input.old) (F.write_faults files.old) (O.faults out.old) (E.faults err.old)) (counts (F.read_faults files.new) (I.faults input.new) (F.write_faults files.new) (O.faults out.new) (E.faults err.new))
        → Ended words.now moment tree bytes result (world (F.tree files.old) (I.left input.old) (O.written out.old) (E.written err.old)) (world (F.tree files.new) (I.left input.new) (O.written out.new) (E.written err.new)) ⊎ (result ≡ Outcome.Memory) }
    ensures answered { (tree : Tree) (bytes : Bytes) → F.tree files.old ≡ Some tree → TellsLeft (reads_input words.now) (I.left input.old) bytes
        → Answered result words.now moment tree bytes (world (F.tree files.old) (I.left input.old) (O.written out.old) (E.written err.old)) (world (F.tree files.new) (I.left input.new) (O.written out.new) (E.written err.new)) (E.faults err.old) (E.faults err.new) }
    ensures counted { Counted result (counts (F.read_faults files.old) (I.faults input.old) (F.write_faults files.old) (O.faults out.old) (E.faults err.old)) (counts (F.read_faults files.new) (I.faults input.new) (F.write_faults files.new) (O.faults out.new) (E.faults err.new)) }
    ensures unread { reads_input words.now ≡ false → input.new ≡ input.old }
{
    let teller = teller_of(words);
    match perform(alloc, words, files, input, out, err, moment) {
        Ok(answer) => answer,
        Err(outcome) => match tell_outcome(err, teller, outcome) {
            Ok(outcome) => outcome,
            Err(Failed) => Outcome::WriteFault,
        },
    }
}

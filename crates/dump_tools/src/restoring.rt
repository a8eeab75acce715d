//! pg_restore: the list of an archive, or its script, or the archive restored into a folder.
ghost use Rattle.std.specs.Prelude.{◌≡◌, ℕ, List, Option, Some, None, false, is_none, IfOk, IfErr, OnErr};
ghost use Rattle.dump_ports.specs.Tree.{Tree};
ghost use Rattle.cat_model.specs.Values.{Bytes};
ghost use Rattle.tool_words.specs.Answers.{Gives, IsDue, IsRefusal, IsTold};
ghost use Rattle.tool_words.specs.declared.words.Teller.{Teller};
ghost use Rattle.dump_tools.specs.Due.{text_of_input, text_of_archive, restore_due, piped_archive, restored_due, folder_due, IsFinal, IsAnswerDue, WasDue, counts, CountsStep};
ghost use Rattle.dump_tools.specs.Inputs.{where_read, TellsLeft, TakesPart};
ghost use Rattle.dump_tools.specs.Outputs.{world};
ghost use Rattle.dump_tools.specs.Runs.{IsEarly, StepTakes, HasCut};

use crate::placing::put_text;
use crate::scripts::{SCRIPT_LIMIT, read_input};
use command_line::RestoreWords;
use copy_text::Text;
use dump_ports::{Files, Sink, Source};
use restore_outcomes::{input_text, path_text};
use restore_tools::restore_folder;
use std::alloc::Global;
use tool_words::{ArchiveAsked, Limit, Outcome, RestoreAsked};

/// What is written of the archive that all of standard input is.
fn input_archive<F: Files, I: Source>(
    alloc: Global,
    files: &mut F,
    input: &mut I,
    words: &RestoreWords,
) -> Result<Vec<u8>, Outcome>
    ensures due { (tree : Tree) (bytes : Bytes) → F.tree files.old ≡ Some tree → I.left input.old ≡ Some bytes → Gives (λ text. text.items) result (text_of_input words.now tree bytes) }
    ensures kept { F.tree files.new ≡ F.tree files.old }
    ensures taken { (bytes : Bytes) → I.left input.old ≡ Some bytes → StepTakes result (Some bytes) (I.left input.old) (I.left input.new) }
    ensures part { (bytes : Bytes) → I.left input.old ≡ Some bytes → TakesPart (Some bytes) (I.left input.old) (I.left input.new) }
    ensures counted { (prints lines : ℕ) → CountsStep result (counts (F.read_faults files.old) (I.faults input.old) (F.write_faults files.old) prints lines) (counts (F.read_faults files.new) (I.faults input.new) (F.write_faults files.new) prints lines) }
{
    let bytes = read_input(alloc, input, Limit::Archive, SCRIPT_LIMIT)?;
    input_text(alloc, files, &bytes, words)
}

/// What is written of an archive: of that at a path, or of the one that all of standard input is.
#[tactic(auto, unfolding(crate::specs::Due::text_of_archive))]
fn read_archive<F: Files, I: Source>(
    alloc: Global,
    files: &mut F,
    input: &mut I,
    asked: &ArchiveAsked,
) -> Result<Vec<u8>, Outcome>
    ensures due { (tree : Tree) (bytes : Bytes) → F.tree files.old ≡ Some tree → TellsLeft (is_none asked.now.archive) (I.left input.old) bytes → Gives (λ text. text.items) result (text_of_archive asked.now.archive asked.now.words tree bytes) }
    ensures kept { F.tree files.new ≡ F.tree files.old }
    ensures unread { is_none asked.now.archive ≡ false → input.new ≡ input.old }
    ensures taken { (bytes : Bytes) → TellsLeft (is_none asked.now.archive) (I.left input.old) bytes → StepTakes result (where_read (is_none asked.now.archive) bytes) (I.left input.old) (I.left input.new) }
    ensures part { (bytes : Bytes) → TellsLeft (is_none asked.now.archive) (I.left input.old) bytes → TakesPart (where_read (is_none asked.now.archive) bytes) (I.left input.old) (I.left input.new) }
    ensures counted { (prints lines : ℕ) → CountsStep result (counts (F.read_faults files.old) (I.faults input.old) (F.write_faults files.old) prints lines) (counts (F.read_faults files.new) (I.faults input.new) (F.write_faults files.new) prints lines) }
{
    match &asked.archive {
        Some(path) => path_text(alloc, files, path, &asked.words),
        None => input_archive(alloc, files, input, &asked.words),
    }
}

/// Reads an archive, whole, and puts what is asked for of it where it goes.
pub(crate) fn pg_restore<F: Files, I: Source, O: Sink>(
    alloc: Global,
    files: &mut F,
    input: &mut I,
    out: &mut O,
    asked: &ArchiveAsked,
) -> Result<Outcome, Outcome>
    ensures ends { IfOk result IsFinal }
    ensures done { IfOk result (λ answer. (tree : Tree) (bytes : Bytes) (told : Option (List ℕ)) → F.tree files.old ≡ Some tree → TellsLeft (is_none asked.now.archive) (I.left input.old) bytes → WasDue (restore_due asked.now tree bytes) answer (F.tree files.old) (F.tree files.new) (O.written out.old) (O.written out.new) told told) }
    ensures refused { IfErr result (λ outcome. (tree : Tree) (bytes : Bytes) → F.tree files.old ≡ Some tree → TellsLeft (is_none asked.now.archive) (I.left input.old) bytes → IsDue outcome (restore_due asked.now tree bytes)) }
    ensures kept { IfErr result (λ outcome. (IsEarly outcome → ⊥) → F.tree files.new ≡ F.tree files.old) }
    ensures quiet { IfErr result (λ outcome. (IsEarly outcome → ⊥) → O.written out.new ≡ O.written out.old) }
    ensures unread { is_none asked.now.archive ≡ false → input.new ≡ input.old }
    ensures taken { (bytes : Bytes) → TellsLeft (is_none asked.now.archive) (I.left input.old) bytes → StepTakes result (where_read (is_none asked.now.archive) bytes) (I.left input.old) (I.left input.new) }
    ensures cut { OnErr result ((teller : Teller) (tree : Tree) (bytes : Bytes) (told : Option (List ℕ)) → F.tree files.old ≡ Some tree → TellsLeft (is_none asked.now.archive) (I.left input.old) bytes → HasCut (where_read (is_none asked.now.archive) bytes) teller (restore_due asked.now tree bytes) (world (F.tree files.old) (I.left input.old) (O.written out.old) told) (world (F.tree files.new) (I.left input.new) (O.written out.new) told)) }
    ensures counted { (lines : ℕ) → CountsStep result (counts (F.read_faults files.old) (I.faults input.old) (F.write_faults files.old) (O.faults out.old) lines) (counts (F.read_faults files.new) (I.faults input.new) (F.write_faults files.new) (O.faults out.new) lines) }
{
    let text = read_archive(alloc, files, input, asked)?;
    put_text(files, out, &asked.target, &text)
}

/// All of standard input, where the archive stands there.
fn piped_archive<I: Source>(
    alloc: Global,
    input: &mut I,
    archive: &Option<Text>,
) -> Result<Vec<u8>, Outcome>
    ensures due { (bytes : Bytes) → TellsLeft (is_none archive.now) (I.left input.old) bytes → Gives (λ text. text.items) result (piped_archive archive.now bytes) }
    ensures unread { is_none archive.now ≡ false → input.new ≡ input.old }
    ensures taken { (bytes : Bytes) → TellsLeft (is_none archive.now) (I.left input.old) bytes → StepTakes result (where_read (is_none archive.now) bytes) (I.left input.old) (I.left input.new) }
    ensures part { (bytes : Bytes) → TellsLeft (is_none archive.now) (I.left input.old) bytes → TakesPart (where_read (is_none archive.now) bytes) (I.left input.old) (I.left input.new) }
    ensures counted { (reads writes prints lines : ℕ) → CountsStep result (counts reads (I.faults input.old) writes prints lines) (counts reads (I.faults input.new) writes prints lines) }
{
    match archive {
        Some(_) => Ok(Vec::new(alloc)),
        None => read_input(alloc, input, Limit::Archive, SCRIPT_LIMIT),
    }
}

/// Restores an archive into a folder, once it was read where it stands on standard input.
fn restore_piped<F: Files, E: Sink>(
    alloc: Global,
    files: &mut F,
    err: &mut E,
    asked: &RestoreAsked,
    piped: &[u8],
) -> Result<Outcome, Outcome>
    ensures ends { IfOk result IsFinal }
    ensures done { IfOk result (λ answer. (tree : Tree) (printed : Option (List ℕ)) → F.tree files.old ≡ Some tree → WasDue (restored_due asked.now piped.now tree) answer (F.tree files.old) (F.tree files.new) printed printed (E.written err.old) (E.written err.new)) }
    ensures refused { IfErr result (λ outcome. (tree : Tree) → F.tree files.old ≡ Some tree → IsAnswerDue outcome (restored_due asked.now piped.now tree)) }
    ensures kept { IfErr result (λ outcome. IsRefusal outcome → F.tree files.new ≡ F.tree files.old) }
    ensures cut { OnErr result ((teller : Teller) (tree : Tree) (left printed : Option (List ℕ)) → F.tree files.old ≡ Some tree → HasCut None teller (restored_due asked.now piped.now tree) (world (F.tree files.old) left printed (E.written err.old)) (world (F.tree files.new) left printed (E.written err.new))) }
    ensures silent { IfErr result (λ outcome. IsTold outcome → E.written err.new ≡ E.written err.old) }
    ensures counted { (inputs prints : ℕ) → CountsStep result (counts (F.read_faults files.old) inputs (F.write_faults files.old) prints (E.faults err.old)) (counts (F.read_faults files.new) inputs (F.write_faults files.new) prints (E.faults err.new)) }
{
    restore_folder(
        alloc,
        files,
        err,
        &asked.folder,
        &asked.archive,
        piped,
        &asked.words,
    )
}

/// Restores an archive into a folder.
pub(crate) fn restore_into<F: Files, I: Source, E: Sink>(
    alloc: Global,
    files: &mut F,
    input: &mut I,
    err: &mut E,
    asked: &RestoreAsked,
) -> Result<Outcome, Outcome>
    ensures ends { IfOk result IsFinal }
    ensures done { IfOk result (λ answer. (tree : Tree) (bytes : Bytes) (printed : Option (List ℕ)) → F.tree files.old ≡ Some tree → TellsLeft (is_none asked.now.archive) (I.left input.old) bytes → WasDue (folder_due asked.now tree bytes) answer (F.tree files.old) (F.tree files.new) printed printed (E.written err.old) (E.written err.new)) }
    ensures refused { IfErr result (λ outcome. (tree : Tree) (bytes : Bytes) → F.tree files.old ≡ Some tree → TellsLeft (is_none asked.now.archive) (I.left input.old) bytes → IsAnswerDue outcome (folder_due asked.now tree bytes)) }
    ensures kept { IfErr result (λ outcome. IsRefusal outcome → F.tree files.new ≡ F.tree files.old) }
    ensures unread { is_none asked.now.archive ≡ false → input.new ≡ input.old }
    ensures taken { (bytes : Bytes) → TellsLeft (is_none asked.now.archive) (I.left input.old) bytes → StepTakes result (where_read (is_none asked.now.archive) bytes) (I.left input.old) (I.left input.new) }
    ensures cut { OnErr result ((teller : Teller) (tree : Tree) (bytes : Bytes) (printed : Option (List ℕ)) → F.tree files.old ≡ Some tree → TellsLeft (is_none asked.now.archive) (I.left input.old) bytes → HasCut (where_read (is_none asked.now.archive) bytes) teller (folder_due asked.now tree bytes) (world (F.tree files.old) (I.left input.old) printed (E.written err.old)) (world (F.tree files.new) (I.left input.new) printed (E.written err.new))) }
    ensures silent { IfErr result (λ outcome. IsTold outcome → E.written err.new ≡ E.written err.old) }
    ensures counted { (prints : ℕ) → CountsStep result (counts (F.read_faults files.old) (I.faults input.old) (F.write_faults files.old) prints (E.faults err.old)) (counts (F.read_faults files.new) (I.faults input.new) (F.write_faults files.new) prints (E.faults err.new)) }
{
    let piped = piped_archive(alloc, input, &asked.archive)?;
    restore_piped(alloc, files, err, asked, &piped)
}

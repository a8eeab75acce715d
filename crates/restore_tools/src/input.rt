//! What is read before anything is restored.
ghost use Rattle.std.specs.Prelude.{◌≡◌, not, Some, IfOk};
ghost use Rattle.dump_ports.specs.Tree.{Tree};
ghost use Rattle.restore_folders.specs.Seen.{work_seen};
ghost use Rattle.restore_folders.specs.Works.{IsReady};
ghost use Rattle.restore_input.specs.Answers.{input_seen};
ghost use Rattle.restore_outcomes.specs.Told.{told};
ghost use Rattle.tool_words.specs.Answers.{Gives, CountsRead};
ghost use Rattle.restore_tools.specs.Due.{path_taken, bytes_taken, taken_of, work_of};

use command_line::RestoreWords;
use copy_text::Text;
use dump_ports::Files;
use restore_folders::{RestoreWork, read_work};
use restore_input::{RestoreInput, custom_input, read_restore};
use restore_outcomes::text_outcome;
use restore_texts::TextFault;
use restore_words::{archive_format, restore_options};
use std::alloc::Global;
use tool_words::Outcome;

// A fault as the program answers it.
fn told(answer: Result<RestoreInput, TextFault>) -> Result<RestoreInput, Outcome>
    ensures { result ≡ told answer }
{
    match answer {
        Ok(input) => Ok(input),
        Err(fault) => Err(text_outcome(fault)),
    }
}

// What is taken of the archive at a path.
#[tactic(auto, unfolding(crate::specs::Due::path_taken))]
fn path_input<F: Files>(
    alloc: Global,
    files: &mut F,
    path: &Text,
    words: &RestoreWords,
) -> Result<RestoreInput, Outcome>
    ensures due { (tree : Tree) → F.tree files.old ≡ Some tree → Gives input_seen result (path_taken words.now path.now tree) }
    ensures kept { F.tree files.new ≡ F.tree files.old }
    ensures read_count { CountsRead result (F.read_faults files.old) (F.read_faults files.new) }
    ensures write_count { F.write_faults files.new ≡ F.write_faults files.old }
{
    let options = restore_options(alloc, words)?;
    told(read_restore(
        alloc,
        files,
        path,
        archive_format(words.format),
        words.use_list.as_ref(),
        &options,
    ))
}

// What is taken of the custom archive that these bytes are.
#[tactic(auto, unfolding(crate::specs::Due::bytes_taken))]
fn bytes_input<F: Files>(
    alloc: Global,
    files: &mut F,
    bytes: &[u8],
    words: &RestoreWords,
) -> Result<RestoreInput, Outcome>
    ensures due { (tree : Tree) → F.tree files.old ≡ Some tree → Gives input_seen result (bytes_taken words.now bytes.now tree) }
    ensures kept { F.tree files.new ≡ F.tree files.old }
    ensures read_count { CountsRead result (F.read_faults files.old) (F.read_faults files.new) }
    ensures write_count { F.write_faults files.new ≡ F.write_faults files.old }
{
    let options = restore_options(alloc, words)?;
    told(custom_input(alloc, files, bytes, words.use_list.as_ref(), &options))
}

// What is taken of an archive, wherever it is.
#[tactic(auto, unfolding(crate::specs::Due::taken_of))]
fn taken_of<F: Files>(
    alloc: Global,
    files: &mut F,
    archive: &Option<Text>,
    input: &[u8],
    words: &RestoreWords,
) -> Result<RestoreInput, Outcome>
    ensures due { (tree : Tree) → F.tree files.old ≡ Some tree → Gives input_seen result (taken_of archive.now words.now input.now tree) }
    ensures kept { F.tree files.new ≡ F.tree files.old }
    ensures read_count { CountsRead result (F.read_faults files.old) (F.read_faults files.new) }
    ensures write_count { F.write_faults files.new ≡ F.write_faults files.old }
{
    match archive {
        Some(path) => path_input(alloc, files, path, words),
        None => bytes_input(alloc, files, input, words),
    }
}

/// Reads all that a restore into a folder works on: the archive, then the folder, then the entries as statements.
#[tactic(auto, unfolding(crate::specs::Due::work_of))]
pub(crate) fn read_all<F: Files>(
    alloc: Global,
    files: &mut F,
    folder: &Text,
    archive: &Option<Text>,
    input: &[u8],
    words: &RestoreWords,
) -> Result<RestoreWork, Outcome>
    ensures due { (tree : Tree) → F.tree files.old ≡ Some tree → Gives work_seen result (work_of folder.now archive.now words.now input.now tree) }
    ensures ready { IfOk result (λ work. IsReady (work_seen work)) }
    ensures kept { F.tree files.new ≡ F.tree files.old }
    ensures read_count { CountsRead result (F.read_faults files.old) (F.read_faults files.new) }
    ensures write_count { F.write_faults files.new ≡ F.write_faults files.old }
{
    let taken = taken_of(alloc, files, archive, input, words)?;
    read_work(alloc, files, folder, taken, !words.no_owner)
}

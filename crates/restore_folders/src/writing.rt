//! A restore written.
ghost use Rattle.std.specs.Prelude.{◌≡◌, option_map, IfErr, IfOk, OnErr, OnOk};
ghost use Rattle.saved_folders.specs.Files.{PartSaved};
ghost use Rattle.tool_words.specs.Answers.{CountsWrite, IsLate};
ghost use Rattle.restore_folders.specs.Written.{files_written, tree_after};

use crate::running::RestoreRun;
use copy_text::Text;
use dump_ports::Files;
use saved_folders::write_texts;
use std::alloc::Global;
use tool_words::Outcome;

/// Writes the folder that a restore leaves, where it leaves one: the data files by rising oid, then the files of the system
/// tables in their order, and the marker last. Files that are none of these are neither read nor changed.
///
/// The only errors are `WriteFault` and `Memory`. After one the files before the one that was being written are whole, that
/// one holds a first part of its text or what it held, and the later ones are untouched.
pub fn write_run<F: Files>(
    alloc: Global,
    files: &mut F,
    folder: &Text,
    run: &RestoreRun,
) -> Result<(), Outcome>
    ensures late { IfErr result IsLate }
    ensures ok { OnOk result (F.tree files.new ≡ option_map (tree_after folder.now run.now.texts) (F.tree files.old)) }
    ensures err { OnErr result (PartSaved (files_written folder.now run.now.texts) (F.tree files.old) (F.tree files.new)) }
    ensures read_count { F.read_faults files.new ≡ F.read_faults files.old }
    ensures write_count { CountsWrite result (F.write_faults files.old) (F.write_faults files.new) }
{
    match &run.texts {
        Some(texts) => write_texts(alloc, files, folder, texts),
        None => Ok(()),
    }
}

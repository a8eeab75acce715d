//! What a restore reads of an archive of either format.
ghost use Rattle.std.specs.Prelude.{◌≡◌, Some};
ghost use Rattle.std.specs.Option.{option_copied};
ghost use Rattle.dump_ports.specs.Tree.{Tree};
ghost use Rattle.restore_texts.specs.Faults.{GivesText, CountsRead};
ghost use Rattle.restore_input.specs.Answers.{input_seen};
ghost use Rattle.restore_input.specs.Inputs.{file_input_due, input_due};

use crate::custom::custom_input;
use crate::directory::folder_input;
use crate::input::RestoreInput;
use copy_text::Text;
use dump_ports::Files;
use entry_choices::Options;
use restore_texts::{ArchiveFormat, TextFault, TextLimit, is_directory, read_file};
use std::alloc::Global;

// What is taken of the custom archive in a file.
#[tactic(auto, unfolding(crate::specs::Inputs::file_input_due))]
fn file_input<F: Files>(
    alloc: Global,
    files: &mut F,
    path: &Text,
    list: Option<&Text>,
    options: &Options,
) -> Result<RestoreInput, TextFault>
    ensures due { (tree : Tree) → F.tree files.old ≡ Some tree → GivesText input_seen result (file_input_due options.now (option_copied list.entry) tree path.now) }
    ensures kept { F.tree files.new ≡ F.tree files.old }
    ensures read_count { CountsRead result (F.read_faults files.old) (F.read_faults files.new) }
    ensures write_count { F.write_faults files.new ≡ F.write_faults files.old }
{
    let bytes = read_file(alloc, files, path, TextLimit::Archive)?;
    custom_input(alloc, files, &bytes, list, options)
}

/// Reads what pg_restore takes of the archive at a path: its entries by the options and the list file, in the order of the
/// list, each with its rows.
///
/// A path with a file `toc.dat` in it is a directory archive, any other a custom one, unless a format is asked for. The
/// archive is read first, then the list file, and of a directory the file of each entry with rows, in the order of the list:
/// the first step that fails gives the answer. `Missing` names the file that is absent; `TooLarge` comes where a custom
/// archive, a list file, or the files of a directory together have more than 268,435,456 bytes; `Archive` and `List` where
/// the archive or the list file has no reading; `Failed` comes exactly where a call of the files failed. Nothing is written.
/// <https://www.postgresql.org/docs/16/app-pgrestore.html>
pub fn read_restore<F: Files>(
    alloc: Global,
    files: &mut F,
    path: &Text,
    format: Option<ArchiveFormat>,
    list: Option<&Text>,
    options: &Options,
) -> Result<RestoreInput, TextFault>
    ensures due { (tree : Tree) → F.tree files.old ≡ Some tree → GivesText input_seen result (input_due options.now (option_copied list.entry) format tree path.now) }
    ensures kept { F.tree files.new ≡ F.tree files.old }
    ensures read_count { CountsRead result (F.read_faults files.old) (F.read_faults files.new) }
    ensures write_count { F.write_faults files.new ≡ F.write_faults files.old }
{
    if is_directory(alloc, files, path, format)? {
        folder_input(alloc, files, path, list, options)
    } else {
        file_input(alloc, files, path, list, options)
    }
}

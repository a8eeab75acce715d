//! What is written of an archive of either format.
ghost use Rattle.std.specs.Prelude.{◌≡◌, Some, IfOk, IfErr};
ghost use Rattle.std.specs.Option.{option_copied};
ghost use Rattle.dump_ports.specs.Tree.{Tree};
ghost use Rattle.restore_texts.specs.Faults.{GivesText, CountsRead, IsFree};
ghost use Rattle.restore_texts.specs.Texts.{is_directory, file_text_due, archive_due};

use crate::asked::{ArchiveFormat, Wish};
use crate::custom::custom_text;
use crate::directory::{folder_text, toc_size};
use crate::fault::{TextFault, TextLimit};
use crate::files::read_file;
use copy_text::Text;
use dump_ports::Files;
use entry_choices::Options;
use std::alloc::Global;

/// Whether a path is a directory archive: the format that is asked for says so, else that a file `toc.dat` is in it.
pub fn is_directory<F: Files>(
    alloc: Global,
    files: &mut F,
    path: &Text,
    format: Option<ArchiveFormat>,
) -> Result<bool, TextFault>
    ensures due { (tree : Tree) → F.tree files.old ≡ Some tree → IfOk result (λ is. is ≡ is_directory format path.now tree) }
    ensures free { IfErr result IsFree }
    ensures kept { F.tree files.new ≡ F.tree files.old }
    ensures read_count { CountsRead result (F.read_faults files.old) (F.read_faults files.new) }
    ensures write_count { F.write_faults files.new ≡ F.write_faults files.old }
{
    match format {
        Some(ArchiveFormat::Custom) => Ok(false),
        Some(ArchiveFormat::Directory) => Ok(true),
        None => Ok(toc_size(alloc, files, path)?.is_some()),
    }
}

// What is written of the custom archive in a file.
#[tactic(auto, unfolding(crate::specs::Texts::file_text_due))]
fn file_text<F: Files>(
    alloc: Global,
    files: &mut F,
    path: &Text,
    list: Option<&Text>,
    options: &Options,
    wish: Wish,
) -> Result<Vec<u8>, TextFault>
    ensures due { (tree : Tree) → F.tree files.old ≡ Some tree → GivesText (λ v. v.items) result (file_text_due wish options.now (option_copied list.entry) tree path.now) }
    ensures kept { F.tree files.new ≡ F.tree files.old }
    ensures read_count { CountsRead result (F.read_faults files.old) (F.read_faults files.new) }
    ensures write_count { F.write_faults files.new ≡ F.write_faults files.old }
{
    let bytes = read_file(alloc, files, path, TextLimit::Archive)?;
    custom_text(alloc, files, &bytes, list, options, wish)
}

/// What pg_restore writes of an archive without restoring it: the list of the entries that it takes, or their script.
///
/// A path with a file `toc.dat` in it is a directory archive, any other a custom one, unless a format is asked for. The
/// archive is read first, then the list file, and for a script the file of each entry with rows, in the order of the list:
/// the first step that fails gives the answer. `Missing` names the file that is absent; `TooLarge` comes where a custom
/// archive, a list file, or the files of a directory together have more than 268,435,456 bytes; `Failed` comes exactly where
/// a call of the files failed. Nothing is written. <https://www.postgresql.org/docs/16/app-pgrestore.html>
pub fn archive_text<F: Files>(
    alloc: Global,
    files: &mut F,
    path: &Text,
    format: Option<ArchiveFormat>,
    list: Option<&Text>,
    options: &Options,
    wish: Wish,
) -> Result<Vec<u8>, TextFault>
    ensures due { (tree : Tree) → F.tree files.old ≡ Some tree → GivesText (λ v. v.items) result (archive_due wish options.now (option_copied list.entry) format tree path.now) }
    ensures kept { F.tree files.new ≡ F.tree files.old }
    ensures read_count { CountsRead result (F.read_faults files.old) (F.read_faults files.new) }
    ensures write_count { F.write_faults files.new ≡ F.write_faults files.old }
{
    if is_directory(alloc, files, path, format)? {
        folder_text(alloc, files, path, list, options, wish)
    } else {
        file_text(alloc, files, path, list, options, wish)
    }
}

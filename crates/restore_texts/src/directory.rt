//! What is written of a directory archive.
ghost use Rattle.std.specs.Prelude.{◌≡◌, Some, IfOk, IfErr, length, option_map, string_bytes};
ghost use Rattle.std.specs.Option.{option_copied};
ghost use Rattle.dump_ports.specs.Tree.{Tree, text_at};
ghost use Rattle.fmt_directory.specs.Answers.{Holds};
ghost use Rattle.fmt_directory.specs.Directories.{Directory, directory_in, toc_name};
ghost use Rattle.archive_scripts.specs.Directories.{toc_len, directory_script};
ghost use Rattle.list_files.specs.Lists.{list_text, entries_at};
ghost use Rattle.restore_texts.specs.Faults.{GivesText, CountsRead, IsFree};
ghost use Rattle.restore_texts.specs.Readers.{GivesDirectory};
ghost use Rattle.restore_texts.specs.Texts.{in_directory, directory_text, behind_directory, directory_due};

use crate::asked::Wish;
use crate::fault::TextFault;
use crate::files::read_places;
use archive_scripts::directory_script;
use copy_text::Text;
use dump_ports::{Failed, Files};
use entry_choices::Options;
use fmt_directory::DirReader;
use list_files::list_of;
use std::alloc::{AllocError, Global};

fn toc_path(alloc: Global, folder: &str) -> Result<String, AllocError>
    ensures { IfOk result (λ path. string_bytes path ≡ toc_name folder.now) }
{
    let mut path = String::from_str(alloc, folder)?;
    path.push_str("/toc.dat")?;
    Ok(path)
}

fn size_of<F: Files>(files: &mut F, name: &str) -> Result<Option<u64>, TextFault>
    ensures due { (tree : Tree) → F.tree files.old ≡ Some tree → IfOk result (λ size. size ≡ option_map (λ text. length text) (text_at tree name.now)) }
    ensures free { IfErr result IsFree }
    ensures kept { F.tree files.new ≡ F.tree files.old }
    ensures read_count { CountsRead result (F.read_faults files.old) (F.read_faults files.new) }
    ensures write_count { F.write_faults files.new ≡ F.write_faults files.old }
{
    match files.size(name) {
        Ok(size) => Ok(size),
        Err(Failed) => Err(TextFault::Failed),
    }
}

/// How many bytes the table of contents of a folder has, where it is there.
pub fn toc_size<F: Files>(
    alloc: Global,
    files: &mut F,
    folder: &Text,
) -> Result<Option<u64>, TextFault>
    ensures due { (tree : Tree) → F.tree files.old ≡ Some tree → IfOk result (λ size. size ≡ option_map (λ text. length text) (text_at tree (toc_name folder.now))) }
    ensures free { IfErr result IsFree }
    ensures kept { F.tree files.new ≡ F.tree files.old }
    ensures read_count { CountsRead result (F.read_faults files.old) (F.read_faults files.new) }
    ensures write_count { F.write_faults files.new ≡ F.write_faults files.old }
{
    let path = toc_path(alloc, folder.as_str())?;
    size_of(files, path.as_str())
}

/// How many bytes the table of contents of a folder has; none where it isn't there.
pub fn toc_len<F: Files>(alloc: Global, files: &mut F, folder: &Text) -> Result<u64, TextFault>
    ensures due { (tree : Tree) → F.tree files.old ≡ Some tree → IfOk result (λ n. n ≡ toc_len folder.now tree) }
    ensures free { IfErr result IsFree }
    ensures kept { F.tree files.new ≡ F.tree files.old }
    ensures read_count { CountsRead result (F.read_faults files.old) (F.read_faults files.new) }
    ensures write_count { F.write_faults files.new ≡ F.write_faults files.old }
{
    match toc_size(alloc, files, folder)? {
        None => Ok(0),
        Some(size) => Ok(size),
    }
}

/// The directory archive in a folder: its file `toc.dat`, all of it.
pub fn read_directory<F: Files>(
    alloc: Global,
    files: &mut F,
    folder: &Text,
) -> Result<DirReader, TextFault>
    ensures held { (tree : Tree) → F.tree files.old ≡ Some tree → GivesDirectory (in_directory (directory_in folder.now tree)) result }
    ensures kept { F.tree files.new ≡ F.tree files.old }
    ensures read_count { CountsRead result (F.read_faults files.old) (F.read_faults files.new) }
    ensures write_count { F.write_faults files.new ≡ F.write_faults files.old }
{
    Ok(DirReader::read(alloc, files, folder.as_str())?)
}

// The list of the entries at places.
fn listed(alloc: Global, reader: &DirReader, places: &[usize]) -> Result<Vec<u8>, AllocError>
    ensures { (d : Directory) → Holds reader.now d → IfOk result (λ text. text.items ≡ list_text d.head (entries_at d.entries places.now)) }
{
    let mut text = Vec::new(alloc);
    list_of(alloc, reader.head(), reader.entries(), places, &mut text)?;
    Ok(text)
}

// The script of the entries at places.
fn scripted<F: Files>(
    alloc: Global,
    files: &mut F,
    reader: &DirReader,
    used: u64,
    places: &[usize],
    owners: bool,
) -> Result<Vec<u8>, TextFault>
    ensures due { (d : Directory) (tree : Tree) → Holds reader.now d → F.tree files.old ≡ Some tree
        → GivesText (λ v. v.items) result (in_directory (directory_script owners d tree used places.now)) }
    ensures kept { F.tree files.new ≡ F.tree files.old }
    ensures read_count { CountsRead result (F.read_faults files.old) (F.read_faults files.new) }
    ensures write_count { F.write_faults files.new ≡ F.write_faults files.old }
{
    Ok(directory_script(alloc, files, reader, used, places, owners)?)
}

// What is written of the entries at places.
fn written<F: Files>(
    alloc: Global,
    files: &mut F,
    reader: &DirReader,
    used: u64,
    places: &[usize],
    options: &Options,
    wish: Wish,
) -> Result<Vec<u8>, TextFault>
    ensures due { (d : Directory) (tree : Tree) → Holds reader.now d → F.tree files.old ≡ Some tree
        → GivesText (λ v. v.items) result (directory_text wish options.now d tree used places.now) }
    ensures kept { F.tree files.new ≡ F.tree files.old }
    ensures read_count { CountsRead result (F.read_faults files.old) (F.read_faults files.new) }
    ensures write_count { F.write_faults files.new ≡ F.write_faults files.old }
{
    match wish {
        Wish::List => Ok(listed(alloc, reader, places)?),
        Wish::Script => scripted(alloc, files, reader, used, places, options.owners),
    }
}

// What is written of an archive that was read.
fn text_of<F: Files>(
    alloc: Global,
    files: &mut F,
    reader: &DirReader,
    used: u64,
    list: Option<&Text>,
    options: &Options,
    wish: Wish,
) -> Result<Vec<u8>, TextFault>
    ensures due { (d : Directory) (tree : Tree) → Holds reader.now d → F.tree files.old ≡ Some tree
        → GivesText (λ v. v.items) result (behind_directory wish options.now (option_copied list.entry) tree used d) }
    ensures kept { F.tree files.new ≡ F.tree files.old }
    ensures read_count { CountsRead result (F.read_faults files.old) (F.read_faults files.new) }
    ensures write_count { F.write_faults files.new ≡ F.write_faults files.old }
{
    let places = read_places(alloc, files, reader.entries(), options, list)?;
    written(alloc, files, reader, used, &places, options, wish)
}

/// What is written of the directory archive in a folder.
#[tactic(auto, unfolding(crate::specs::Texts::directory_due))]
pub fn folder_text<F: Files>(
    alloc: Global,
    files: &mut F,
    folder: &Text,
    list: Option<&Text>,
    options: &Options,
    wish: Wish,
) -> Result<Vec<u8>, TextFault>
    ensures due { (tree : Tree) → F.tree files.old ≡ Some tree → GivesText (λ v. v.items) result (directory_due wish options.now (option_copied list.entry) tree folder.now) }
    ensures kept { F.tree files.new ≡ F.tree files.old }
    ensures read_count { CountsRead result (F.read_faults files.old) (F.read_faults files.new) }
    ensures write_count { F.write_faults files.new ≡ F.write_faults files.old }
{
    let reader = read_directory(alloc, files, folder)?;
    let used = toc_len(alloc, files, folder)?;
    text_of(alloc, files, &reader, used, list, options, wish)
}

//! What a restore reads of a directory archive.
ghost use Rattle.std.specs.Prelude.{◌≡◌, ◌++◌, ◌∷◌, [], Some, Ok, IfErr, IfOk};
ghost use Rattle.std.specs.Option.{option_copied};
ghost use Rattle.dump_ports.specs.Tree.{Tree};
ghost use Rattle.fmt_directory.specs.Answers.{GivesDue, Holds, CountsRead as CountsDirectory};
ghost use Rattle.fmt_directory.specs.Directories.{Directory};
ghost use Rattle.restore_texts.specs.Faults.{GivesText, CountsRead};
ghost use Rattle.archive_scripts.specs.Directories.{rows_within};
ghost use Rattle.restore_texts.specs.Texts.{in_directory};
ghost use Rattle.restore_input.specs.Answers.{texts_seen, input_seen};
ghost use Rattle.restore_input.specs.Inputs.{texts_due, directory_input, behind_directory, directory_input_due};
ghost use Rattle.restore_input.specs.Steps.{PutsText};

use crate::input::RestoreInput;
use crate::taken::entries_at;
use crate::texts::push_text;
use archive_scripts::rows_within;
use copy_text::Text;
use dump_ports::Files;
use entry_choices::Options;
use fmt_directory::{DirFault, DirReader};
use restore_texts::{TextFault, read_directory, read_places, toc_len};
use std::alloc::Global;
use toc_entry::Entry;

// Adds the rows of a dump id, and answers how many bytes were read with them.
fn push_rows<F: Files>(
    alloc: Global,
    files: &mut F,
    reader: &DirReader,
    used: u64,
    dump_id: u32,
    texts: &mut Vec<Option<Vec<u8>>>,
) -> Result<u64, DirFault>
    ensures due { (d : Directory) (tree : Tree) → Holds reader.now d → F.tree files.old ≡ Some tree
        → PutsText texts.old.items texts.new.items result (rows_within d tree used dump_id) }
    ensures kept { F.tree files.new ≡ F.tree files.old }
    ensures read_count { CountsDirectory result (F.read_faults files.old) (F.read_faults files.new) }
    ensures write_count { F.write_faults files.new ≡ F.write_faults files.old }
{
    let (rows, total) = rows_within(alloc, files, reader, used, dump_id)?;
    push_text(texts, rows)?;
    Ok(total)
}

// The rows of entries, whose files are read one after another.
fn texts_of<F: Files>(
    alloc: Global,
    files: &mut F,
    reader: &DirReader,
    used: u64,
    entries: &[Entry],
) -> Result<Vec<Option<Vec<u8>>>, DirFault>
    ensures due { (d : Directory) (tree : Tree) → Holds reader.now d → F.tree files.old ≡ Some tree
        → GivesDue (λ texts. texts_seen texts.items) result (texts_due d tree used entries.now) }
    ensures kept { F.tree files.new ≡ F.tree files.old }
    ensures read_count { CountsDirectory result (F.read_faults files.old) (F.read_faults files.new) }
    ensures write_count { F.write_faults files.new ≡ F.write_faults files.old }
{
    let mut texts = Vec::new(alloc);
    let mut bytes = used;
    for entry in entries {
        bytes = push_rows(alloc, files, reader, bytes, entry.dump_id, &mut texts)?;
    }
    Ok(texts)
}

// The entries at places, with their rows.
fn taken<F: Files>(
    alloc: Global,
    files: &mut F,
    reader: &DirReader,
    used: u64,
    places: &[usize],
) -> Result<RestoreInput, DirFault>
    ensures due { (d : Directory) (tree : Tree) → Holds reader.now d → F.tree files.old ≡ Some tree
        → GivesDue input_seen result (directory_input d tree used places.now) }
    ensures kept { F.tree files.new ≡ F.tree files.old }
    ensures read_count { CountsDirectory result (F.read_faults files.old) (F.read_faults files.new) }
    ensures write_count { F.write_faults files.new ≡ F.write_faults files.old }
{
    let entries = entries_at(alloc, reader.entries(), places)?;
    let texts = texts_of(alloc, files, reader, used, &entries)?;
    Ok(RestoreInput { entries, texts })
}

// The same, where a fault is that of the whole.
fn taken_at<F: Files>(
    alloc: Global,
    files: &mut F,
    reader: &DirReader,
    used: u64,
    places: &[usize],
) -> Result<RestoreInput, TextFault>
    ensures due { (d : Directory) (tree : Tree) → Holds reader.now d → F.tree files.old ≡ Some tree
        → GivesText input_seen result (in_directory (directory_input d tree used places.now)) }
    ensures kept { F.tree files.new ≡ F.tree files.old }
    ensures read_count { CountsRead result (F.read_faults files.old) (F.read_faults files.new) }
    ensures write_count { F.write_faults files.new ≡ F.write_faults files.old }
{
    Ok(taken(alloc, files, reader, used, places)?)
}

// The entries that are taken of an archive that was read.
fn input_of<F: Files>(
    alloc: Global,
    files: &mut F,
    reader: &DirReader,
    used: u64,
    list: Option<&Text>,
    options: &Options,
) -> Result<RestoreInput, TextFault>
    ensures due { (d : Directory) (tree : Tree) → Holds reader.now d → F.tree files.old ≡ Some tree
        → GivesText input_seen result (behind_directory options.now (option_copied list.entry) tree used d) }
    ensures kept { F.tree files.new ≡ F.tree files.old }
    ensures read_count { CountsRead result (F.read_faults files.old) (F.read_faults files.new) }
    ensures write_count { F.write_faults files.new ≡ F.write_faults files.old }
{
    let places = read_places(alloc, files, reader.entries(), options, list)?;
    taken_at(alloc, files, reader, used, &places)
}

/// What pg_restore takes of the directory archive in a folder: its entries by the options and the list file, each with its
/// rows. The errors are those of `read_restore`.
#[tactic(auto, unfolding(crate::specs::Inputs::directory_input_due))]
pub fn folder_input<F: Files>(
    alloc: Global,
    files: &mut F,
    folder: &Text,
    list: Option<&Text>,
    options: &Options,
) -> Result<RestoreInput, TextFault>
    ensures due { (tree : Tree) → F.tree files.old ≡ Some tree → GivesText input_seen result (directory_input_due options.now (option_copied list.entry) tree folder.now) }
    ensures kept { F.tree files.new ≡ F.tree files.old }
    ensures read_count { CountsRead result (F.read_faults files.old) (F.read_faults files.new) }
    ensures write_count { F.write_faults files.new ≡ F.write_faults files.old }
{
    let reader = read_directory(alloc, files, folder)?;
    let used = toc_len(alloc, files, folder)?;
    input_of(alloc, files, &reader, used, list, options)
}

//! The files that are read.
ghost use Rattle.std.specs.Prelude.{◌≡◌, Some, IfErr, option_map};
ghost use Rattle.std.specs.Option.{option_copied};
ghost use Rattle.dump_ports.specs.Tree.{Tree};
ghost use Rattle.list_files.specs.Edits.{chosen};
ghost use Rattle.restore_texts.specs.Faults.{GivesText, CountsRead, IsCallFree};
ghost use Rattle.restore_texts.specs.Texts.{file_due, list_due, in_list, places_due};

use crate::fault::{TextFault, TextLimit};
use copy_text::Text;
use dump_ports::{Files, WholeFault, read_whole};
use entry_choices::Options;
use list_files::chosen_places;
use std::alloc::Global;
use toc_entry::Entry;

/// The most bytes of an archive, and of a list file.
pub const LIMIT: u64 = 268_435_456;

/// The bytes of a file, which must be there and within the limit.
pub fn read_file<F: Files>(
    alloc: Global,
    files: &mut F,
    name: &Text,
    what: TextLimit,
) -> Result<Vec<u8>, TextFault>
    ensures due { (tree : Tree) → F.tree files.old ≡ Some tree → GivesText (λ v. v.items) result (file_due what name.now tree) }
    ensures kept { F.tree files.new ≡ F.tree files.old }
    ensures read_count { CountsRead result (F.read_faults files.old) (F.read_faults files.new) }
    ensures write_count { F.write_faults files.new ≡ F.write_faults files.old }
{
    match read_whole(alloc, files, name.as_str(), LIMIT) {
        Ok(Some(text)) => Ok(text),
        Ok(None) => Err(TextFault::Missing(name.clone()?)),
        Err(WholeFault::TooLarge(size)) => Err(TextFault::TooLarge(what, size)),
        Err(WholeFault::Failed) => Err(TextFault::Failed),
        Err(WholeFault::Memory) => Err(TextFault::Memory),
    }
}

// The text of the list file, where there is one.
fn read_list<F: Files>(
    alloc: Global,
    files: &mut F,
    list: Option<&Text>,
) -> Result<Option<Vec<u8>>, TextFault>
    ensures due { (tree : Tree) → F.tree files.old ≡ Some tree → GivesText (option_map (λ v. v.items)) result (list_due (option_copied list.entry) tree) }
    ensures kept { F.tree files.new ≡ F.tree files.old }
    ensures read_count { CountsRead result (F.read_faults files.old) (F.read_faults files.new) }
    ensures write_count { F.write_faults files.new ≡ F.write_faults files.old }
{
    match list {
        None => Ok(None),
        Some(name) => Ok(Some(read_file(alloc, files, name, TextLimit::List)?)),
    }
}

// The places of the entries that are taken.
fn chosen(
    alloc: Global,
    entries: &[Entry],
    options: &Options,
    list: &Option<Vec<u8>>,
) -> Result<Vec<usize>, TextFault>
    ensures due { GivesText (λ v. v.items) result (in_list (chosen options.now entries.now (option_map (λ v. v.items) list.now))) }
    ensures uncounted { IfErr result IsCallFree }
{
    match list {
        None => Ok(chosen_places(alloc, entries, options, None)?),
        Some(list) => Ok(chosen_places(alloc, entries, options, Some(list.as_slice()))?),
    }
}

/// The places of the entries that are taken, by the options and the list file, where there is one.
pub fn read_places<F: Files>(
    alloc: Global,
    files: &mut F,
    entries: &[Entry],
    options: &Options,
    list: Option<&Text>,
) -> Result<Vec<usize>, TextFault>
    ensures due { (tree : Tree) → F.tree files.old ≡ Some tree → GivesText (λ v. v.items) result (places_due options.now entries.now (option_copied list.entry) tree) }
    ensures kept { F.tree files.new ≡ F.tree files.old }
    ensures read_count { CountsRead result (F.read_faults files.old) (F.read_faults files.new) }
    ensures write_count { F.write_faults files.new ≡ F.write_faults files.old }
{
    let text = read_list(alloc, files, list)?;
    chosen(alloc, entries, options, &text)
}

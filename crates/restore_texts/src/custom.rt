//! What is written of a custom archive.
ghost use Rattle.std.specs.Prelude.{◌≡◌, Some, IfOk, IfErr};
ghost use Rattle.std.specs.Option.{option_copied};
ghost use Rattle.dump_ports.specs.Tree.{Tree};
ghost use Rattle.list_files.specs.Lists.{list_text, entries_at};
ghost use Rattle.fmt_custom.specs.Customs.{Custom, custom_in};
ghost use Rattle.fmt_custom.specs.Readers.{Holds};
ghost use Rattle.restore_texts.specs.Faults.{GivesText, CountsRead, IsCallFree};
ghost use Rattle.restore_texts.specs.Readers.{GivesCustom};
ghost use Rattle.restore_texts.specs.Texts.{in_archive, custom_text, behind_custom, custom_due};

use crate::asked::Wish;
use crate::fault::TextFault;
use crate::files::read_places;
use archive_scripts::custom_script;
use copy_text::Text;
use dump_ports::Files;
use entry_choices::Options;
use fmt_custom::CustomReader;
use list_files::list_of;
use std::alloc::{AllocError, Global};

/// The custom archive that these bytes are, all of them. The errors are the first fault of the bytes, and want of memory.
pub fn read_custom<'a>(alloc: Global, bytes: &'a [u8]) -> Result<CustomReader<'a>, TextFault>
    ensures held { GivesCustom (in_archive (custom_in bytes.now)) result }
    ensures uncounted { IfErr result IsCallFree }
{
    Ok(CustomReader::read(alloc, bytes)?)
}

// The list of the entries at places.
fn listed(alloc: Global, reader: &CustomReader<'_>, places: &[usize]) -> Result<Vec<u8>, AllocError>
    ensures { (custom : Custom) → Holds reader.now custom → IfOk result (λ text. text.items ≡ list_text custom.head (entries_at custom.entries places.now)) }
{
    let mut text = Vec::new(alloc);
    list_of(alloc, reader.head(), reader.entries(), places, &mut text)?;
    Ok(text)
}

// What is written of the entries at places.
fn written(
    alloc: Global,
    reader: &CustomReader<'_>,
    places: &[usize],
    options: &Options,
    wish: Wish,
) -> Result<Vec<u8>, AllocError>
    ensures { (custom : Custom) → Holds reader.now custom → IfOk result (λ text. text.items ≡ custom_text wish options.now custom places.now) }
{
    match wish {
        Wish::List => listed(alloc, reader, places),
        Wish::Script => custom_script(alloc, reader, places, options.owners),
    }
}

// What is written of an archive that was read.
fn text_of<F: Files>(
    alloc: Global,
    files: &mut F,
    reader: &CustomReader<'_>,
    list: Option<&Text>,
    options: &Options,
    wish: Wish,
) -> Result<Vec<u8>, TextFault>
    ensures due { (custom : Custom) (tree : Tree) → Holds reader.now custom → F.tree files.old ≡ Some tree
        → GivesText (λ v. v.items) result (behind_custom wish options.now (option_copied list.entry) tree custom) }
    ensures kept { F.tree files.new ≡ F.tree files.old }
    ensures read_count { CountsRead result (F.read_faults files.old) (F.read_faults files.new) }
    ensures write_count { F.write_faults files.new ≡ F.write_faults files.old }
{
    let places = read_places(alloc, files, reader.entries(), options, list)?;
    Ok(written(alloc, reader, &places, options, wish)?)
}

/// What is written of the custom archive that these bytes are.
#[tactic(auto, unfolding(crate::specs::Texts::custom_due))]
pub fn custom_text<F: Files>(
    alloc: Global,
    files: &mut F,
    bytes: &[u8],
    list: Option<&Text>,
    options: &Options,
    wish: Wish,
) -> Result<Vec<u8>, TextFault>
    ensures due { (tree : Tree) → F.tree files.old ≡ Some tree → GivesText (λ v. v.items) result (custom_due wish options.now (option_copied list.entry) tree bytes.now) }
    ensures kept { F.tree files.new ≡ F.tree files.old }
    ensures read_count { CountsRead result (F.read_faults files.old) (F.read_faults files.new) }
    ensures write_count { F.write_faults files.new ≡ F.write_faults files.old }
{
    let reader = read_custom(alloc, bytes)?;
    text_of(alloc, files, &reader, list, options, wish)
}

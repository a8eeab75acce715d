//! What a restore reads of a custom archive.
ghost use Rattle.std.specs.Prelude.{◌≡◌, ◌++◌, ◌∷◌, [], Some, IfOk, OnOk};
ghost use Rattle.std.specs.Option.{option_copied};
ghost use Rattle.dump_ports.specs.Tree.{Tree};
ghost use Rattle.fmt_custom.specs.Customs.{Custom};
ghost use Rattle.fmt_custom.specs.Readers.{Holds};
ghost use Rattle.archive_scripts.specs.Scripts.{custom_rows};
ghost use Rattle.restore_texts.specs.Faults.{GivesText, CountsRead};
ghost use Rattle.restore_input.specs.Answers.{texts_seen, input_seen};
ghost use Rattle.restore_input.specs.Inputs.{custom_texts, custom_input, behind_custom, custom_input_due};

use crate::input::RestoreInput;
use crate::taken::entries_at;
use crate::texts::push_text;
use archive_scripts::custom_rows;
use copy_text::Text;
use dump_ports::Files;
use entry_choices::Options;
use fmt_custom::CustomReader;
use restore_texts::{TextFault, read_custom, read_places};
use std::alloc::{AllocError, Global};
use toc_entry::Entry;

// Adds the rows of a dump id.
fn push_rows(
    alloc: Global,
    reader: &CustomReader<'_>,
    dump_id: u32,
    texts: &mut Vec<Option<Vec<u8>>>,
) -> Result<(), AllocError>
    ensures { (custom : Custom) → Holds reader.now custom → OnOk result (texts_seen texts.new.items ≡ texts_seen texts.old.items ++ custom_rows custom dump_id ∷ []) }
{
    let rows = custom_rows(alloc, reader, dump_id)?;
    push_text(texts, rows)
}

// The rows of entries.
fn texts_of(
    alloc: Global,
    reader: &CustomReader<'_>,
    entries: &[Entry],
) -> Result<Vec<Option<Vec<u8>>>, AllocError>
    ensures { (custom : Custom) → Holds reader.now custom → IfOk result (λ texts. texts_seen texts.items ≡ custom_texts custom entries.now) }
{
    let mut texts = Vec::new(alloc);
    for entry in entries {
        push_rows(alloc, reader, entry.dump_id, &mut texts)?;
    }
    Ok(texts)
}

// The entries at places, with their rows.
fn taken(
    alloc: Global,
    reader: &CustomReader<'_>,
    places: &[usize],
) -> Result<RestoreInput, AllocError>
    ensures { (custom : Custom) → Holds reader.now custom → IfOk result (λ input. input_seen input ≡ custom_input custom places.now) }
{
    let entries = entries_at(alloc, reader.entries(), places)?;
    let texts = texts_of(alloc, reader, &entries)?;
    Ok(RestoreInput { entries, texts })
}

// The entries that are taken of an archive that was read.
fn input_of<F: Files>(
    alloc: Global,
    files: &mut F,
    reader: &CustomReader<'_>,
    list: Option<&Text>,
    options: &Options,
) -> Result<RestoreInput, TextFault>
    ensures due { (custom : Custom) (tree : Tree) → Holds reader.now custom → F.tree files.old ≡ Some tree
        → GivesText input_seen result (behind_custom options.now (option_copied list.entry) tree custom) }
    ensures kept { F.tree files.new ≡ F.tree files.old }
    ensures read_count { CountsRead result (F.read_faults files.old) (F.read_faults files.new) }
    ensures write_count { F.write_faults files.new ≡ F.write_faults files.old }
{
    let places = read_places(alloc, files, reader.entries(), options, list)?;
    Ok(taken(alloc, reader, &places)?)
}

/// What pg_restore takes of the custom archive that these bytes are, as standard input gives them: its entries by the
/// options and the list file, each with its rows. The errors are those of `read_restore`.
#[tactic(auto, unfolding(crate::specs::Inputs::custom_input_due))]
pub fn custom_input<F: Files>(
    alloc: Global,
    files: &mut F,
    bytes: &[u8],
    list: Option<&Text>,
    options: &Options,
) -> Result<RestoreInput, TextFault>
    ensures due { (tree : Tree) → F.tree files.old ≡ Some tree → GivesText input_seen result (custom_input_due options.now (option_copied list.entry) tree bytes.now) }
    ensures kept { F.tree files.new ≡ F.tree files.old }
    ensures read_count { CountsRead result (F.read_faults files.old) (F.read_faults files.new) }
    ensures write_count { F.write_faults files.new ≡ F.write_faults files.old }
{
    let reader = read_custom(alloc, bytes)?;
    input_of(alloc, files, &reader, list, options)
}

//! The script of a custom archive.
ghost use Rattle.std.specs.Prelude.{◌≡◌, ◌++◌, IfOk, OnOk, option_map};
ghost use Rattle.std.specs.List.{concat};
ghost use Rattle.fmt_text.specs.Parts.{part};
ghost use Rattle.fmt_custom.specs.Customs.{Custom};
ghost use Rattle.fmt_custom.specs.Readers.{Holds};
ghost use Rattle.archive_scripts.specs.Scripts.{head_text, part_at, parts_at, custom_rows, custom_script};

use crate::entries::entry_at;
use fmt_custom::{CustomReader, Pieces};
use fmt_text::{put_end, put_head, put_part};
use std::alloc::{AllocError, Global};
use toc_entry::Entry;

// The pieces, one behind another.
fn gathered(alloc: Global, pieces: Pieces<'_>) -> Result<Vec<u8>, AllocError>
    ensures { IfOk result (λ bytes. bytes.items ≡ concat pieces.entry) }
{
    let mut bytes = Vec::new(alloc);
    for piece in pieces {
        bytes.extend_from_slice(piece)?;
    }
    Ok(bytes)
}

/// The rows of the entry of a custom archive with a dump id, all their pieces one behind another, where it has rows. The
/// error says that there was no memory.
pub fn custom_rows(
    alloc: Global,
    reader: &CustomReader<'_>,
    dump_id: u32,
) -> Result<Option<Vec<u8>>, AllocError>
    ensures { (custom : Custom) → Holds reader.now custom → IfOk result (λ rows. option_map (λ v. v.items) rows ≡ custom_rows custom dump_id) }
{
    match reader.pieces(dump_id) {
        None => Ok(None),
        Some(pieces) => Ok(Some(gathered(alloc, pieces)?)),
    }
}

// Appends the part of an entry.
fn put_entry(
    alloc: Global,
    reader: &CustomReader<'_>,
    entry: &Entry,
    owners: bool,
    out: &mut Vec<u8>,
) -> Result<(), AllocError>
    ensures { (custom : Custom) → Holds reader.now custom → OnOk result (out.new.items ≡ out.old.items ++ part owners entry.now (custom_rows custom entry.now.dump_id)) }
{
    let rows = custom_rows(alloc, reader, entry.dump_id)?;
    put_part(alloc, entry, &rows, owners, out)
}

// Appends the part of the entry at a place.
fn put_at(
    alloc: Global,
    reader: &CustomReader<'_>,
    place: usize,
    owners: bool,
    out: &mut Vec<u8>,
) -> Result<(), AllocError>
    ensures { (custom : Custom) → Holds reader.now custom → OnOk result (out.new.items ≡ out.old.items ++ part_at owners custom.entries (custom_rows custom) place) }
{
    match entry_at(reader.entries(), place) {
        None => Ok(()),
        Some(entry) => put_entry(alloc, reader, entry, owners, out),
    }
}

// Appends the parts of the entries at places.
fn put_all(
    alloc: Global,
    reader: &CustomReader<'_>,
    places: &[usize],
    owners: bool,
    out: &mut Vec<u8>,
) -> Result<(), AllocError>
    ensures { (custom : Custom) → Holds reader.now custom → OnOk result (out.new.items ≡ out.old.items ++ parts_at owners custom.entries (custom_rows custom) places.now) }
{
    for place in places {
        put_at(alloc, reader, *place, owners, out)?;
    }
    Ok(())
}

// Appends the head of the script.
#[tactic(auto, unfolding(fmt_text::specs::Script::script_head))]
fn put_front(reader: &CustomReader<'_>, out: &mut Vec<u8>) -> Result<(), AllocError>
    ensures { (custom : Custom) → Holds reader.now custom → OnOk result (out.new.items ≡ out.old.items ++ head_text custom.head) }
{
    put_head(reader.head(), out)
}

/// The plain script of the entries of a custom archive at these places, in their order, with owners or without.
///
/// What is restored of the archive is the caller's choice; a place past the last entry stands for none. The error says that
/// there was no memory. <https://www.postgresql.org/docs/16/app-pgrestore.html>
#[tactic(auto, unfolding(crate::specs::Scripts::custom_script))]
pub fn custom_script(
    alloc: Global,
    reader: &CustomReader<'_>,
    places: &[usize],
    owners: bool,
) -> Result<Vec<u8>, AllocError>
    ensures { (custom : Custom) → Holds reader.now custom → IfOk result (λ text. text.items ≡ custom_script owners custom places.now) }
{
    let mut text = Vec::new(alloc);
    put_front(reader, &mut text)?;
    put_all(alloc, reader, places, owners, &mut text)?;
    put_end(&mut text)?;
    Ok(text)
}

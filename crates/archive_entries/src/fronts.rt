//! The head and the table of contents of a dump.
ghost use Rattle.std.specs.Prelude.{◌≡◌, ◌<◌, ◌^◌, ◌++◌, ℕ, List, All, length, map, pos, OnOk, IfOk};
ghost use Rattle.std.specs.String.{string_bytes};
ghost use Rattle.toc_entry.specs.declared.entry.Entry.{Entry};
ghost use Rattle.toc_entry.specs.declared.entry.Extra.TheVariants.{File};
ghost use Rattle.toc_layout.specs.Entries.{whole};
ghost use Rattle.toc_layout.specs.Heads.{head_seen, head as head_part};
ghost use Rattle.toc_layout.specs.Writable.{IsShort, HeadCanBeWritten, EntryCanBeWritten, entry_text};
ghost use Rattle.toc_table.specs.Writing.{entries_text};
ghost use Rattle.archive_entries.specs.Extras.{unplaced_extra, unplaced, told_by, told, file_name, filed, front_of};
ghost use Rattle.archive_entries.specs.Fits.{CanBeArchived};

use crate::extra::write_as;
use copy_text::Text;
use itoa::Buffer;
use std::alloc::{AllocError, Global};
use toc_entry::{Entry, Extra, Head};
use toc_layout::write_head;
use toc_parts::write_integer;

/// The state of a place that isn't told.
const UNTOLD: u8 = 1;

/// The state of a place that is told.
const TOLD: u8 = 2;

/// The state of an entry without rows.
const NO_ROWS: u8 = 3;

/// Appends the head and the entries of a dump in the custom format whose blocks have no place yet. After an `Err` a part of
/// them may stand there.
pub fn write_unplaced(head: &Head, entries: &[Entry], out: &mut Vec<u8>) -> Result<(), AllocError>
    requires { CanBeArchived (head_seen head.now) entries.now }
    ensures { OnOk result (out.new.items ≡ out.old.items ++ front_of (head_seen head.now) (map unplaced entries.now)) }
{
    write_top(head, entries.len(), out)?;
    write_unplaced_entries(entries, out)
}

/// Appends the head and the entries of a dump in the custom format, of which those with rows tell these places of their
/// blocks, one after another. After an `Err` a part of them may stand there.
pub fn write_placed(
    head: &Head,
    entries: &[Entry],
    places: &[u64],
    out: &mut Vec<u8>,
) -> Result<(), AllocError>
    requires { CanBeArchived (head_seen head.now) entries.now }
    ensures { OnOk result (out.new.items ≡ out.old.items ++ front_of (head_seen head.now) (told entries.now places.now)) }
{
    write_top(head, entries.len(), out)?;
    write_placed_entries(entries, places, out)
}

/// Appends the head and the entries of a dump in the directory format: the text of `toc.dat`. After an `Err` a part of it
/// may stand there.
pub fn write_filed(
    alloc: Global,
    head: &Head,
    entries: &[Entry],
    out: &mut Vec<u8>,
) -> Result<(), AllocError>
    requires { CanBeArchived (head_seen head.now) entries.now }
    ensures { OnOk result (out.new.items ≡ out.old.items ++ front_of (head_seen head.now) (map filed entries.now)) }
{
    write_top(head, entries.len(), out)?;
    write_filed_entries(alloc, entries, out)
}

/// Appends the head and the number of entries.
fn write_top(head: &Head, count: usize, out: &mut Vec<u8>) -> Result<(), AllocError>
    requires head { HeadCanBeWritten (head_seen head.now) }
    requires few { count < 2 ^ 32 }
    ensures { OnOk result (out.new.items ≡ out.old.items ++ (head_part.write (head_seen head.now) ++ whole.write (pos count))) }
{
    write_head(head, out)?;
    write_integer(count as i64, out)
}

/// The place of rows that isn't told yet.
fn unplaced_extra(has_rows: bool) -> Extra
    ensures { result ≡ unplaced_extra has_rows }
{
    let state = if has_rows { UNTOLD } else { NO_ROWS };
    Extra::Place { state, offset: 0 }
}

fn write_unplaced_entries(entries: &[Entry], out: &mut Vec<u8>) -> Result<(), AllocError>
    requires { All EntryCanBeWritten entries.now }
    ensures { OnOk result (out.new.items ≡ out.old.items ++ entries_text (map unplaced entries.now)) }
{
    for entry in entries {
        write_as(entry, &unplaced_extra(entry.has_rows), out)?;
    }
    Ok(())
}

#[tactic(auto, unfolding(crate::specs::Extras::told))]
fn write_placed_entries(
    entries: &[Entry],
    places: &[u64],
    out: &mut Vec<u8>,
) -> Result<(), AllocError>
    requires { All EntryCanBeWritten entries.now }
    ensures { OnOk result (out.new.items ≡ out.old.items ++ entries_text (told entries.now places.now)) }
{
    let mut left = places;
    for entry in entries {
        left = write_next(entry, left, out)?;
    }
    Ok(())
}

/// Appends an entry, which tells the next place if it has rows and a place is left. Gives the places that are left.
fn write_next<'a>(
    entry: &Entry,
    places: &'a [u64],
    out: &mut Vec<u8>,
) -> Result<&'a [u64], AllocError>
    requires { EntryCanBeWritten entry.now }
    ensures { (more : List ℕ → List Entry) → IfOk result (λ left. out.old.items ++ entries_text (told_by entry.now entry.now.has_rows places.now more) ≡ out.new.items ++ entries_text (more left.now)) }
{
    if !entry.has_rows {
        write_as(entry, &unplaced_extra(false), out)?;
        return Ok(places);
    }
    let Some((offset, left)) = places.split_first() else {
        write_as(entry, &unplaced_extra(true), out)?;
        return Ok(places);
    };
    let extra = Extra::Place {
        state: TOLD,
        offset: *offset,
    };
    write_as(entry, &extra, out)?;
    Ok(left)
}

/// The text of a string.
fn text_of(string: String) -> Text
    ensures { result ≡ string_bytes string }
{
    match Text::new(string.into_bytes()) {
        Some(text) => text,
        None => unreachable!(),
    }
}

/// The name of the file of an entry's rows.
fn name_of_file(alloc: Global, has_rows: bool, dump_id: u32) -> Result<Text, AllocError>
    ensures value { IfOk result (λ name. name ≡ file_name has_rows dump_id) }
    ensures short { IfOk result IsShort }
{
    let mut name = String::new(alloc);
    if has_rows {
        name.push_str(Buffer::new().format(dump_id))?;
        name.push_str(".dat")?;
    }
    Ok(text_of(name))
}

fn write_filed_entries(
    alloc: Global,
    entries: &[Entry],
    out: &mut Vec<u8>,
) -> Result<(), AllocError>
    requires { All EntryCanBeWritten entries.now }
    ensures { OnOk result (out.new.items ≡ out.old.items ++ entries_text (map filed entries.now)) }
{
    for entry in entries {
        write_with_file(alloc, entry, out)?;
    }
    Ok(())
}

/// Appends an entry that tells the file of its rows.
fn write_with_file(alloc: Global, entry: &Entry, out: &mut Vec<u8>) -> Result<(), AllocError>
    requires { EntryCanBeWritten entry.now }
    ensures { OnOk result (out.new.items ≡ out.old.items ++ entry_text (filed entry.now)) }
{
    let extra = Extra::File(name_of_file(alloc, entry.has_rows, entry.dump_id)?);
    write_as(entry, &extra, out)
}

//! Entries that are written with another place of their rows.
ghost use Rattle.std.specs.Prelude.{◌≡◌, ◌++◌, ℕ, List, length, OnOk};
ghost use Rattle.toc_entry.specs.declared.entry.Extra.TheVariants.{Place};
ghost use Rattle.toc_layout.specs.Writable.{ExtraCanBeWritten, EntryCanBeWritten, entry_text};
ghost use Rattle.archive_entries.specs.Extras.{with_extra, bare_text, extra_text};

use std::alloc::AllocError;
use toc_entry::{Entry, Extra};
use toc_layout::write_entry;
use toc_parts::{write_number_of_eight, write_string};

/// How many bytes the state and the offset of a place take.
const PLACE: usize = 9;

/// How many bytes the length of a name takes.
const NAME_LENGTH: usize = 5;

/// Appends an entry that tells another place of its rows than its own. After an `Err` a part of it may stand there.
/// <https://www.postgresql.org/docs/16/app-pgdump.html>
pub fn write_as(entry: &Entry, extra: &Extra, out: &mut Vec<u8>) -> Result<(), AllocError>
    requires entry { EntryCanBeWritten entry.now }
    requires extra { ExtraCanBeWritten extra.now }
    ensures { OnOk result (out.new.items ≡ out.old.items ++ entry_text (with_extra extra.now entry.now)) }
{
    write_bare(entry, out)?;
    write_extra(extra, out)
}

/// Appends all of an entry but the place of its rows, which is the last of it.
fn write_bare(entry: &Entry, out: &mut Vec<u8>) -> Result<(), AllocError>
    requires { EntryCanBeWritten entry.now }
    ensures { OnOk result (out.new.items ≡ out.old.items ++ bare_text entry.now) }
{
    write_entry(entry, out)?;
    let len = extra_len(&entry.extra);
    out.truncate(out.len() - len);
    Ok(())
}

/// How many bytes the place of rows takes at the end of an entry.
fn extra_len(extra: &Extra) -> usize
    requires { ExtraCanBeWritten extra.now }
    ensures { result ≡ length (extra_text extra.now) }
{
    match extra {
        Extra::Place { .. } => PLACE,
        Extra::File(name) => NAME_LENGTH + name.as_bytes().len(),
    }
}

#[tactic(auto, unfolding(toc_layout::specs::Entries::extra))]
fn write_extra(extra: &Extra, out: &mut Vec<u8>) -> Result<(), AllocError>
    requires { ExtraCanBeWritten extra.now }
    ensures { OnOk result (out.new.items ≡ out.old.items ++ extra_text extra.now) }
{
    match extra {
        Extra::Place { state, offset } => write_place(*state, *offset, out),
        Extra::File(name) => write_string(Some(name), out),
    }
}

#[tactic(auto, unfolding(toc_layout::specs::Entries::extra))]
fn write_place(state: u8, offset: u64, out: &mut Vec<u8>) -> Result<(), AllocError>
    ensures { OnOk result (out.new.items ≡ out.old.items ++ extra_text (Place state offset)) }
{
    out.push(state)?;
    write_number_of_eight(offset, out)
}

//! Reading at a place of all the bytes of an archive, which tells places in them.
ghost use Rattle.std.specs.Prelude.{◌≡◌, ◌-◌, length, drop, Some};
ghost use Rattle.toc_parts.specs.Answers.{Gives};
ghost use Rattle.toc_layout.specs.Faults.{entry_halt, entry_fault, placed, placed_entry_fault, placed_stop};
ghost use Rattle.toc_layout.specs.Entries.{whole, optional, entry};

use crate::fault::{EntryFault, EntryHalt, EntryStop, ReadEntryError};
use crate::reading::{dump_id, entry_behind, optional};
use copy_text::Text;
use std::alloc::Global;
use toc_entry::Entry;

fn behind(bytes: &[u8], at: usize) -> &[u8]
    ensures { result.now ≡ drop at bytes.now }
{
    let at = at.min(bytes.len());
    &bytes[at..]
}

fn place(bytes: &[u8], rest: &[u8]) -> usize
    ensures { result ≡ length bytes.now - length rest.now }
{
    bytes.len().saturating_sub(rest.len())
}

/// The integer at a place, strictly between -2^32 and 2^32, and the place behind it.
///
/// It has a sign byte, of which any but 0 means that it is below zero, and four bytes of the magnitude, least
/// significant first. Where fewer are left it is `Short` with the number of the bytes. It takes no memory.
pub fn read_int(bytes: &[u8], at: usize) -> Result<(i64, usize), EntryFault>
    ensures { Gives Some (λ x. x) result (placed placed_entry_fault (length bytes.now) (whole.read (drop at bytes.now))) }
{
    match toc_parts::integer(behind(bytes, at)) {
        Ok((n, rest)) => Ok((n, place(bytes, rest))),
        Err(fault) => Err(EntryHalt::from(fault).placed(bytes.len())),
    }
}

/// The string at a place, `None` where its length is -1, and the place behind it.
///
/// `Short` comes where the bytes end within it, `BadString` for a length below -1 and for bytes that aren't UTF-8.
pub fn read_str(
    alloc: Global,
    bytes: &[u8],
    at: usize,
) -> Result<(Option<Text>, usize), ReadEntryError>
    ensures { Gives entry_fault (λ x. x) result (placed placed_entry_fault (length bytes.now) (optional.read (drop at bytes.now))) }
{
    match optional(alloc, behind(bytes, at)) {
        Ok((text, rest)) => Ok((text, place(bytes, rest))),
        Err(stop) => Err(placed_error(stop, bytes.len())),
    }
}

/// The entry at a place, and the place behind it. `directory` says that the archive is a directory.
///
/// The fault is the first in the order of the bytes. <https://www.postgresql.org/docs/16/app-pgrestore.html>
pub fn read_entry(
    alloc: Global,
    bytes: &[u8],
    at: usize,
    directory: bool,
) -> Result<(Entry, usize), ReadEntryError>
    ensures { Gives entry_fault (λ x. x) result (placed placed_entry_fault (length bytes.now) ((entry directory).read (drop at bytes.now))) }
{
    match entry_at_front(alloc, behind(bytes, at), directory) {
        Ok((entry, rest)) => Ok((entry, place(bytes, rest))),
        Err(stop) => Err(placed_error(stop, bytes.len())),
    }
}

fn entry_at_front(alloc: Global, rest: &[u8], directory: bool) -> Result<(Entry, &[u8]), EntryStop>
    ensures { Gives entry_halt (λ x. (x.0, x.1.now)) result ((entry directory).read rest.now) }
{
    let (dump_id, rest) = dump_id(rest)?;
    entry_behind(alloc, dump_id, rest, directory)
}

fn placed_error(stop: EntryStop, len: usize) -> ReadEntryError
    ensures { result ≡ placed_stop len stop }
{
    match stop {
        EntryStop::Halt(halt) => ReadEntryError::Fault(halt.placed(len)),
        EntryStop::Memory => ReadEntryError::Memory,
    }
}

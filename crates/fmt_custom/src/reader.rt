//! Reading an archive in the custom format.
ghost use Rattle.std.specs.Prelude.{◌≡◌, [], false, ℕ, List, length, IfOk};
ghost use Rattle.std.specs.List.{slice_get};
ghost use Rattle.toc_parts.specs.Parts.{raised_at};
ghost use Rattle.toc_parts.specs.Answers.{Gives};
ghost use Rattle.toc_layout.specs.declared.fault.ArchiveFault.TheVariants as faults;
ghost use Rattle.toc_layout.specs.Faults.{archive_fault};
ghost use Rattle.toc_layout.specs.Heads.{head_seen, head_in};
ghost use Rattle.toc_table.specs.Ids.{AreIds};
ghost use Rattle.toc_table.specs.Tables.{toc, lefts, placed_toc_fault, ids_with_rows};
ghost use Rattle.fmt_custom.specs.Blocks.{placed_block_fault};
ghost use Rattle.fmt_custom.specs.Customs.{Found, found_in, leads, offset_fault, entry_fault_in, first_fault, raised_to, custom_behind};
ghost use Rattle.fmt_custom.specs.Indexes.{LeadsToIds, IsSuffix, AreFound};
ghost use Rattle.fmt_custom.specs.Readers.{GivesPlacedBlocks, GivesCustom};

use crate::blocks::{Blocks, read_blocks};
use crate::fault::BlockStop;
use crate::pieces::Pieces;
use std::alloc::Global;
use std::collections::{BTreeMap, BTreeSet};
use toc_entry::{Entry, Extra, Head};
use toc_layout::{ArchiveFault, ReadArchiveError, ReadHeadError, split_head};
use toc_table::{Toc, TocStop, ids_with_rows, read_toc};

/// An archive in the custom format that was read: its head, its entries and the rows of those that have rows.
#[derive(Drop)]
pub struct CustomReader<'a> {
    bytes: &'a [u8],
    head: Head,
    entries: Vec<Entry>,
    // The places in the bytes where the pieces of an entry's rows begin.
    rows: BTreeMap<u32, usize>,
}

fn head_of(alloc: Global, bytes: &[u8]) -> Result<(Head, &[u8]), ReadArchiveError>
    ensures { Gives archive_fault (λ x. (head_seen x.0, x.1.now)) result (raised_at faults.Head (head_in bytes.now)) }
{
    match split_head(alloc, bytes) {
        Ok(found) => Ok(found),
        Err(ReadHeadError::Fault(fault)) => Err(ReadArchiveError::Fault(ArchiveFault::Head(fault))),
        Err(ReadHeadError::Memory) => Err(ReadArchiveError::Memory),
    }
}

fn toc_of(alloc: Global, len: usize, rest: &[u8]) -> Result<(Toc, &[u8]), ReadArchiveError>
    ensures read { Gives archive_fault (λ x. (x.0.entries.items, x.1.now)) result (raised_at (placed_toc_fault len) ((toc false).read rest.now)) }
    ensures lefts { IfOk result (λ x. x.0.lefts.items ≡ lefts false rest.now) }
{
    match read_toc(alloc, rest, false) {
        Ok(found) => Ok(found),
        Err(TocStop::Halt(halt)) => Err(ReadArchiveError::Fault(halt.placed(len))),
        Err(TocStop::Memory) => Err(ReadArchiveError::Memory),
    }
}

fn blocks_of(
    alloc: Global,
    bytes: &[u8],
    rest: &[u8],
    known: &BTreeSet<u32>,
) -> Result<Blocks, ReadArchiveError>
    requires suffix { IsSuffix rest.now bytes.now }
    requires known { (ids : List ℕ) × AreIds known.now ids }
    ensures { (ids : List ℕ) → AreIds known.now ids
        → GivesPlacedBlocks bytes.now (raised_to (placed_block_fault (length bytes.now)) (found_in (length bytes.now) ids rest.now)) result }
{
    match read_blocks(alloc, bytes, rest, known) {
        Ok(blocks) => Ok(blocks),
        Err(BlockStop::Halt(halt)) => Err(ReadArchiveError::Fault(halt.placed(bytes.len()))),
        Err(BlockStop::Memory) => Err(ReadArchiveError::Memory),
    }
}

fn leads(place: usize, id: u32, block: Option<u32>) -> Option<ArchiveFault>
    ensures { result ≡ leads place id block }
{
    match block {
        None => Some(ArchiveFault::Block(place)),
        Some(other) if other == id => None,
        Some(other) => Some(ArchiveFault::WrongId(i64::from(other))),
    }
}

/// What is wrong with the offset of an entry.
fn offset_fault(blocks: &Blocks, place: usize, id: u32, extra: &Extra) -> Option<ArchiveFault>
    ensures { (found : List Found) → LeadsToIds blocks.now.starts found → result ≡ offset_fault found place id extra.now }
{
    match extra {
        Extra::Place { state, offset } => {
            if *state == 2 {
                leads(place, id, blocks.starts.get(offset).copied())
            } else {
                None
            }
        }
        Extra::File(_) => None,
    }
}

/// What is wrong with an entry and its block.
fn entry_fault(blocks: &Blocks, place: usize, entry: &Entry) -> Option<ArchiveFault>
    ensures { (bytes : List ℕ) (found : List Found) → AreFound bytes blocks.now found → result ≡ entry_fault_in found place entry.now }
{
    if entry.has_rows && !blocks.rows.contains_key(&entry.dump_id) {
        return Some(ArchiveFault::NoBlock(entry.dump_id));
    }
    offset_fault(blocks, place, entry.dump_id, &entry.extra)
}

/// The first fault of the entries in bytes of this length.
fn first_fault(
    blocks: &Blocks,
    len: usize,
    entries: &[Entry],
    lefts: &[usize],
) -> Option<ArchiveFault>
    ensures { (bytes : List ℕ) (found : List Found) → AreFound bytes blocks.now found → result ≡ first_fault found len entries.now lefts.now }
{
    for (i, entry) in entries.iter().enumerate() {
        let left = left_at(lefts, i)?;
        let place = len.saturating_sub(left).saturating_sub(8);
        if let Some(fault) = entry_fault(blocks, place, entry) {
            return Some(fault);
        }
    }
    None
}

fn left_at(lefts: &[usize], i: usize) -> Option<usize>
    ensures { result ≡ slice_get lefts.now i }
{
    lefts.get(i).copied()
}

/// The archive of this head, of which the entries and blocks are in the rest of the bytes.
fn read_behind<'a>(
    alloc: Global,
    bytes: &'a [u8],
    head: Head,
    rest: &[u8],
) -> Result<CustomReader<'a>, ReadArchiveError>
    requires { IsSuffix rest.now bytes.now }
    ensures { GivesCustom (custom_behind (length bytes.now) (head_seen head) rest.now) result }
{
    let (toc, rest) = toc_of(alloc, bytes.len(), rest)?;
    let known = ids_with_rows(alloc, &toc.entries)?;
    let blocks = blocks_of(alloc, bytes, rest, &known)?;
    if let Some(fault) = first_fault(&blocks, bytes.len(), &toc.entries, &toc.lefts) {
        return Err(ReadArchiveError::Fault(fault));
    }
    Ok(CustomReader {
        bytes,
        head,
        entries: toc.entries,
        rows: blocks.rows,
    })
}

impl<'a> CustomReader<'a> {
    ghost use Rattle.std.specs.Prelude.{◌≡◌, ℕ, List, Option};
    ghost use Rattle.fmt_custom.specs.Customs.{Custom, custom_in, pieces_of};
    ghost use Rattle.fmt_custom.specs.Readers.{Holds, GivesCustom};

    /// The archive that these bytes are, all of them: the head, the table of contents and every block.
    ///
    /// Without memory it may fail; every other error is the first fault of the bytes.
    /// <https://www.postgresql.org/docs/16/app-pgrestore.html>
    pub fn read(alloc: Global, bytes: &'a [u8]) -> Result<CustomReader<'a>, ReadArchiveError>
        ensures { GivesCustom (custom_in bytes.now) result }
    {
        let (head, rest) = head_of(alloc, bytes)?;
        if head.format != 1 {
            return Err(ReadArchiveError::Fault(ArchiveFault::WrongFormat(head.format)));
        }
        read_behind(alloc, bytes, head, rest)
    }

    /// The head.
    pub fn head(&self) -> &Head
        ensures { (custom : Custom) → Holds self.now custom → head_seen result.now ≡ custom.head }
    {
        &self.head
    }

    /// The entries in the order of the archive.
    pub fn entries(&self) -> &[Entry]
        ensures { (custom : Custom) → Holds self.now custom → result.now ≡ custom.entries }
    {
        &self.entries
    }

    /// The pieces of the rows of the entry with this dump id, `None` exactly where no entry with rows has it.
    pub fn pieces(&self, dump_id: u32) -> Option<Pieces<'a>>
        ensures { (custom : Custom) → Holds self.now custom → result ≡ pieces_of dump_id custom.found }
    {
        match self.rows.get(&dump_id) {
            Some(place) => Some(Pieces::at(self.bytes, *place)),
            None => None,
        }
    }
}

//! Reading a table of contents.
ghost use Rattle.std.specs.Prelude.{◌≡◌, ◌≤◌, ◌∷◌, [], ℕ, List, IfOk};
ghost use Rattle.toc_parts.specs.Parts.{counted_at, lefts_at};
ghost use Rattle.toc_parts.specs.Answers.{Gives};
ghost use Rattle.toc_table.specs.Ids.{AreIds};
ghost use Rattle.toc_table.specs.Tables.{toc_halt, in_toc, count, fresh_entry, entries, toc, lefts};

use crate::fault::{TocHalt, TocStop};
use crate::ids::add_id;
use std::alloc::Global;
use std::collections::BTreeSet;
use toc_entry::Entry;
use toc_layout::{EntryHalt, EntryStop};

/// The most entries that an archive has.
pub const LIMIT: u32 = 200_000;

fn stopped(stop: EntryStop) -> TocStop
    ensures { result ≡ in_toc stop }
{
    match stop {
        EntryStop::Halt(halt) => TocStop::Halt(TocHalt::Entry(halt)),
        EntryStop::Memory => TocStop::Memory,
    }
}

#[tactic(auto, unfolding(crate::specs::Tables::count))]
fn count(rest: &[u8]) -> Result<(u32, &[u8]), TocStop>
    ensures { Gives toc_halt (λ x. (x.0, x.1.now)) result (count.read rest.now) }
{
    let (count, behind) = match toc_layout::whole(rest) {
        Ok(found) => found,
        Err(stop) => return Err(stopped(stop)),
    };
    match toc_parts::natural(count) {
        Some(count) if count <= LIMIT => Ok((count, behind)),
        Some(count) => Err(TocStop::Halt(TocHalt::TooMany(u64::from(count)))),
        None => Err(TocStop::Halt(TocHalt::Entry(EntryHalt::BadNumber { left: rest.len() }))),
    }
}

/// The entry at the front, of which the id is none of these; they are then with it.
#[tactic(auto, unfolding(crate::specs::Tables::fresh_entry))]
fn fresh_entry<'a>(
    alloc: Global,
    ids: &mut BTreeSet<u32>,
    rest: &'a [u8],
    directory: bool,
) -> Result<(Entry, &'a [u8]), TocStop>
    ensures read { (earlier : List ℕ) → AreIds ids.old earlier
        → Gives toc_halt (λ x. (x.0, x.1.now)) result ((fresh_entry directory earlier).read rest.now) }
    ensures ids { IfOk result (λ x. (earlier : List ℕ) → AreIds ids.old earlier → AreIds ids.new (x.0.dump_id ∷ earlier)) }
{
    let (id, behind) = match toc_layout::dump_id(rest) {
        Ok(found) => found,
        Err(stop) => return Err(stopped(stop)),
    };
    let first = add_id(ids, id)?;
    if !first {
        return Err(TocStop::Halt(TocHalt::RepeatedId(id)));
    }
    match toc_layout::entry_behind(alloc, id, behind, directory) {
        Ok(found) => Ok(found),
        Err(stop) => Err(stopped(stop)),
    }
}

/// The entries of an archive, and beside each how many bytes are left behind it.
#[derive(Drop)]
pub struct Toc {
    /// The entries in the order of the archive.
    pub entries: Vec<Entry>,
    /// How many bytes are left behind each.
    pub lefts: Vec<usize>,
}

/// The table of contents at the front, and the bytes behind it. `directory` says that the archive is a directory.
pub fn read_toc(alloc: Global, rest: &[u8], directory: bool) -> Result<(Toc, &[u8]), TocStop>
    ensures read { Gives toc_halt (λ x. (x.0.entries.items, x.1.now)) result ((toc directory).read rest.now) }
    ensures lefts { IfOk result (λ x. x.0.lefts.items ≡ lefts directory rest.now) }
{
    let (count, rest) = count(rest)?;
    read_entries(alloc, count, rest, directory)
}

fn read_entries(
    alloc: Global,
    count: u32,
    rest: &[u8],
    directory: bool,
) -> Result<(Toc, &[u8]), TocStop>
    ensures read { Gives toc_halt (λ x. (x.0.entries.items, x.1.now)) result (counted_at (entries directory) count [] rest.now) }
    ensures lefts { IfOk result (λ x. x.0.lefts.items ≡ lefts_at (entries directory) count [] rest.now) }
{
    let mut entries = Vec::new(alloc);
    let mut lefts = Vec::new(alloc);
    let mut ids = BTreeSet::new(alloc);
    let mut left = rest;
    for _ in 0..count {
        let (entry, behind) = fresh_entry(alloc, &mut ids, left, directory)?;
        entries.push(entry)?;
        lefts.push(behind.len())?;
        left = behind;
    }
    Ok((Toc { entries, lefts }, left))
}

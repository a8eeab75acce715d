//! The blocks of a custom archive.
ghost use Rattle.std.specs.Prelude.{◌≡◌, ◌∷◌, ◌-◌, ℕ, List, Some, IfOk, OnOk, MatchOption, [], length, drop};
ghost use Rattle.std.specs.Option.{option_copied};
ghost use Rattle.dump_ports.specs.Moment.{IsPart};
ghost use Rattle.toc_parts.specs.Answers.{Gives};
ghost use Rattle.toc_parts.specs.Fields.{byte};
ghost use Rattle.toc_table.specs.Ids.{is_among, AreIds};
ghost use Rattle.fmt_custom.specs.declared.fault.BlockHalt.TheVariants.{Short};
ghost use Rattle.fmt_custom.specs.Customs.{Found, ids_of, found_in};
ghost use Rattle.fmt_custom.specs.Indexes.{LeadsToRows, LeadsToIds, IsSuffix, GivesBlocks};
ghost use Rattle.fmt_custom.specs.Blocks.{pieces_in, whole, piece_length, piece, pieces, rest_of, tag, known_id, block_start};

use crate::fault::{BlockHalt, BlockStop};
use std::alloc::{AllocError, Global};
use std::collections::{BTreeMap, BTreeSet};
use toc_table::{add_id, has_id};

fn whole(rest: &[u8]) -> Result<(i64, &[u8]), BlockHalt>
    ensures read { Gives Some (λ x. (x.0, x.1.now)) result (whole.read rest.now) }
    ensures range { IfOk result (λ x. IsPart x.0) }
{
    Ok(toc_parts::integer(rest)?)
}

fn byte(rest: &[u8]) -> Result<(u8, &[u8]), BlockHalt>
    ensures { Gives Some (λ x. (x.0, x.1.now)) result ((byte Short).read rest.now) }
{
    Ok(toc_parts::byte(rest)?)
}

fn piece_length(rest: &[u8]) -> Result<(Option<u32>, &[u8]), BlockHalt>
    ensures { Gives Some (λ x. (x.0, x.1.now)) result (piece_length.read rest.now) }
{
    let (length, behind) = whole(rest)?;
    match toc_parts::natural(length) {
        Some(0) => Ok((None, behind)),
        Some(length) => Ok((Some(length), behind)),
        None => Err(BlockHalt::Block { left: rest.len() }),
    }
}

/// The piece at the front, `None` at the end of the pieces, and the bytes behind it.
#[tactic(auto, unfolding(crate::specs::Blocks::piece))]
fn piece(rest: &[u8]) -> Result<(Option<&[u8]>, &[u8]), BlockHalt>
    ensures { Gives Some (λ x. (option_copied x.0, x.1.now)) result (piece.read rest.now) }
{
    let (length, behind) = piece_length(rest)?;
    let Some(length) = length else {
        return Ok((None, behind));
    };
    let length = length as usize;
    if behind.len() < length {
        return Err(BlockHalt::Short);
    }
    let (bytes, behind) = behind.split_at(length);
    Ok((Some(bytes), behind))
}

fn tag(rest: &[u8]) -> Result<&[u8], BlockHalt>
    ensures { Gives Some (λ x. (tt, x.now)) result (tag.read rest.now) }
{
    let (tag, behind) = byte(rest)?;
    match tag {
        1 => Ok(behind),
        3 => Err(BlockHalt::LargeObjects { left: rest.len() }),
        _ => Err(BlockHalt::Block { left: rest.len() }),
    }
}

fn known_id<'a>(rest: &'a [u8], known: &BTreeSet<u32>) -> Result<(u32, &'a [u8]), BlockHalt>
    ensures { (ids : List ℕ) → AreIds known.now ids → Gives Some (λ x. (x.0, x.1.now)) result ((known_id ids).read rest.now) }
{
    let (found, behind) = whole(rest)?;
    match toc_parts::natural(found) {
        Some(id) if has_id(known, id) => Ok((id, behind)),
        _ => Err(BlockHalt::WrongId(found)),
    }
}

/// The dump id of the block at the front, of which no block came before, and the bytes behind it, where its pieces begin.
#[tactic(auto, unfolding(crate::specs::Blocks::block_start))]
fn block_start<'a>(
    rest: &'a [u8],
    known: &BTreeSet<u32>,
    earlier: &BTreeSet<u32>,
) -> Result<(u32, &'a [u8]), BlockHalt>
    ensures { (ids before : List ℕ) → AreIds known.now ids → AreIds earlier.now before
        → Gives Some (λ x. (x.0, x.1.now)) result ((block_start ids before).read rest.now) }
{
    let behind = tag(rest)?;
    let (id, behind) = known_id(behind, known)?;
    if has_id(earlier, id) {
        return Err(BlockHalt::RepeatedBlock { left: rest.len() });
    }
    Ok((id, behind))
}

/// The bytes behind the pieces at the front.
fn pieces_end(rest: &[u8]) -> Result<&[u8], BlockHalt>
    ensures { Gives Some (λ x. x.now) result (rest_of (pieces.read rest.now)) }
{
    let mut left = rest;
    'pieces: loop {
        let (found, behind) = piece(left)?;
        left = behind;
        match found {
            Some(_) => {}
            None => return Ok(left),
        }
    }
}

/// Where blocks are found again: by the dump ids of their entries, and by their places.
#[derive(Drop)]
pub(crate) struct Blocks {
    /// The ids so far.
    pub(crate) ids: BTreeSet<u32>,
    /// The places where the pieces of an entry's rows begin, by its dump id.
    pub(crate) rows: BTreeMap<u32, usize>,
    /// The dump ids of blocks by their places.
    pub(crate) starts: BTreeMap<u64, u32>,
}

/// Adds a block.
fn add_block(
    blocks: &mut Blocks,
    bytes: &[u8],
    id: u32,
    start: u64,
    rows: usize,
) -> Result<(), AllocError>
    ensures ids { OnOk result ((found : List Found) → AreIds blocks.old.ids (ids_of found) → AreIds blocks.new.ids (id ∷ ids_of found)) }
    ensures rows { OnOk result ((found : List Found) → LeadsToRows bytes.now blocks.old.rows found
        → LeadsToRows bytes.now blocks.new.rows (record { id = id; start = start; pieces = pieces_in (drop rows bytes.now) } ∷ found)) }
    ensures starts { OnOk result ((found : List Found) → LeadsToIds blocks.old.starts found
        → LeadsToIds blocks.new.starts (record { id = id; start = start; pieces = pieces_in (drop rows bytes.now) } ∷ found)) }
{
    add_id(&mut blocks.ids, id)?;
    blocks.rows.insert(id, rows)?;
    blocks.starts.insert(start, id)?;
    Ok(())
}

/// The blocks at the end of an archive's bytes, up to their end.
pub(crate) fn read_blocks(
    alloc: Global,
    bytes: &[u8],
    rest: &[u8],
    known: &BTreeSet<u32>,
) -> Result<Blocks, BlockStop>
    requires suffix { IsSuffix rest.now bytes.now }
    requires known { (ids : List ℕ) × AreIds known.now ids }
    ensures { (ids : List ℕ) → AreIds known.now ids → GivesBlocks bytes.now (found_in (length bytes.now) ids rest.now) result }
{
    let mut blocks = Blocks {
        ids: BTreeSet::new(alloc),
        rows: BTreeMap::new(alloc),
        starts: BTreeMap::new(alloc),
    };
    let mut left = rest;
    'each: while !left.is_empty() {
        let (id, rows) = block_start(left, known, &blocks.ids)?;
        let behind = pieces_end(rows)?;
        let start = place(bytes, left) as u64;
        let rows = place(bytes, rows);
        add_block(&mut blocks, bytes, id, start, rows)?;
        left = behind;
    }
    Ok(blocks)
}

/// The place of the rest in the bytes.
fn place(bytes: &[u8], rest: &[u8]) -> usize
    ensures { result ≡ length bytes.now - length rest.now }
{
    bytes.len().saturating_sub(rest.len())
}

/// The next of some pieces, and the bytes behind it.
pub(crate) fn next_piece(rest: &[u8]) -> Option<(&[u8], &[u8])>
    ensures { MatchOption result (pieces_in rest.now ≡ []) (λ x. pieces_in rest.now ≡ x.0.now ∷ pieces_in x.1.now) }
{
    match piece(rest) {
        Ok((found, behind)) => match found {
            Some(bytes) => Some((bytes, behind)),
            None => None,
        },
        Err(_) => None,
    }
}

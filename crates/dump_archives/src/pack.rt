//! The pieces of a block.
ghost use Rattle.std.specs.Prelude.{◌≡◌, ◌≤◌, ◌<◌, ◌++◌, ℕ, List, length, None, OnOk, IfOk};
ghost use Rattle.fmt_custom.specs.Blocks.{piece};
ghost use Rattle.dump_archives.specs.Pieces.{packed};

use fmt_custom::{end_block, write_piece};
use std::alloc::AllocError;
use std::mem::swap;

/// How many bytes a piece has, unless it is the last one.
const PIECE: usize = 65536;

/// Moves the whole pieces of a run to what waits. What is left changes places with what `spare` holds, which is room alone.
pub(crate) fn pack(
    run: &mut Vec<u8>,
    spare: &mut Vec<u8>,
    waiting: &mut Vec<u8>,
) -> Result<(), AllocError>
    ensures ok { OnOk result ((more : List ℕ) × (waiting.new.items ≡ waiting.old.items ++ more) × ((rest : List ℕ) → packed (run.old.items ++ rest) ≡ more ++ packed (run.new.items ++ rest))) }
    ensures short { OnOk result (length run.new.items < 65536) }
{
    spare.clear();
    spare.extend_from_slice(pack_pieces(run, waiting)?)?;
    swap(run, spare);
    Ok(())
}

/// Puts the whole pieces behind what waits, and answers what is left.
fn pack_pieces<'a>(run: &'a [u8], waiting: &mut Vec<u8>) -> Result<&'a [u8], AllocError>
    ensures ok { IfOk result (λ left. (more : List ℕ) × (waiting.new.items ≡ waiting.old.items ++ more) × ((rest : List ℕ) → packed (run.now ++ rest) ≡ more ++ packed (left.now ++ rest))) }
    ensures short { IfOk result (λ left. length left.now < 65536) }
{
    let mut rest = run;
    while rest.len() >= PIECE {
        let (piece, later) = rest.split_at(PIECE);
        write_piece(piece, waiting)?;
        rest = later;
    }
    Ok(rest)
}

/// Puts the last piece behind what waits, if one is left, and the end of the block.
pub(crate) fn finish_block(run: &[u8], waiting: &mut Vec<u8>) -> Result<(), AllocError>
    requires { length run.now < 65536 }
    ensures { OnOk result (waiting.new.items ≡ waiting.old.items ++ (packed run.now ++ piece.write None)) }
{
    last_piece(run, waiting)?;
    end_block(waiting)
}

/// Puts the last piece behind what waits, if one is left.
fn last_piece(run: &[u8], waiting: &mut Vec<u8>) -> Result<(), AllocError>
    requires { length run.now < 65536 }
    ensures { OnOk result (waiting.new.items ≡ waiting.old.items ++ packed run.now) }
{
    if run.is_empty() {
        return Ok(());
    }
    write_piece(run, waiting)?;
    Ok(())
}

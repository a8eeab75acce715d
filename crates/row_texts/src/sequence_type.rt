//! Texts of the types of sequences.
ghost use Rattle.std.specs.Prelude.{◌≡◌, drop, IfOk};
ghost use Rattle.ddl_part_laws.specs.Pieces.{GivesPart};
ghost use Rattle.row_texts.specs.SequenceTypes.{sequence_type, sequence_kind};

use crate::tokens::{all_read, all_tokens};
use cat_model::SequenceKind;
use ddl_pieces::{Pieces, ReadError};
use std::alloc::{AllocError, Global};

// A word that is the type of a sequence.
#[tactic(auto, unfolding(crate::specs::SequenceTypes::sequence_type))]
fn sequence_type(pieces: &Pieces<'_>, at: usize) -> Result<(SequenceKind, usize), ReadError>
    ensures { GivesPart pieces.now (λ k. k) result (sequence_type.read (drop at pieces.now)) }
{
    if pieces.is_word(at, "smallint") {
        let at = pieces.word(at, "smallint")?;
        return Ok((SequenceKind::SmallInt, at));
    }
    if pieces.is_word(at, "integer") {
        let at = pieces.word(at, "integer")?;
        return Ok((SequenceKind::Integer, at));
    }
    let at = pieces.word(at, "bigint")?;
    Ok((SequenceKind::BigInt, at))
}

/// The type that a text names, in any letter case; `None` where it is none of a sequence. Blanks and comments around are
/// free.
#[tactic(auto, unfolding(crate::specs::SequenceTypes::sequence_kind))]
pub fn sequence_kind(alloc: Global, text: &[u8]) -> Result<Option<SequenceKind>, AllocError>
    ensures { IfOk result (λ kind. kind ≡ sequence_kind text.now) }
{
    match all_tokens(alloc, text)? {
        Some(pieces) => all_read(&pieces, sequence_type(&pieces, 0)),
        None => Ok(None),
    }
}

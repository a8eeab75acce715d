//! Defaults of columns and domains.
ghost use Rattle.std.specs.Prelude.{◌≡◌, ◌≤◌, ◌-◌, length, take, drop, true, IfOk};
ghost use Rattle.ddl_parts.specs.Pieces.{lexemes, are_joined, are_sound, GivesPart};
ghost use Rattle.ddl_parts.specs.Expressions.{are_not_null, without_not_null, default_and_null};

use crate::pieces::is_word_at;
use crate::runs::{run_end, text_between};
use copy_text::Text;
use ddl_parts::{Parsed, Piece};
use std::alloc::{AllocError, Global};

/// Whether the last two tokens of a run are NOT and NULL.
#[tactic(auto, using(crate::proofs::Endings::ends_null))]
fn ends_not_null(text: &[u8], pieces: &[Piece], from: usize, end: usize) -> bool
    requires joined { are_joined (length text.now) pieces.now ≡ true }
    requires low { from ≤ end }
    requires high { end ≤ length pieces.now }
    ensures { result ≡ are_not_null (drop (end - from - 2) (take (end - from) (drop from (lexemes text.now pieces.now)))) }
{
    if end - from < 2 {
        return false;
    }
    is_word_at(text, pieces, end - 2, "not") && is_word_at(text, pieces, end - 1, "null")
}

/// The text of a run without a NOT NULL at its end, and whether one stands there.
#[tactic(auto, unfolding(ddl_parts::specs::Expressions::without_not_null))]
fn text_and_null(
    alloc: Global,
    text: &[u8],
    pieces: &[Piece],
    from: usize,
    end: usize,
) -> Result<(Text, bool), AllocError>
    requires joined { are_joined (length text.now) pieces.now ≡ true }
    requires sound { are_sound text.now pieces.now ≡ true }
    requires low { from ≤ end }
    requires high { end ≤ length pieces.now }
    ensures { IfOk result (λ x. (x.0, x.1) ≡ without_not_null (take (end - from) (drop from (lexemes text.now pieces.now)))) }
{
    if ends_not_null(text, pieces, from, end) {
        return Ok((text_between(alloc, text, pieces, from, end - 2)?, true));
    }
    Ok((text_between(alloc, text, pieces, from, end)?, false))
}

/// The text of the default at a place, whether NOT NULL follows it, and the place behind both.
#[tactic(auto, unfolding(ddl_parts::specs::Expressions::default_and_null))]
pub(crate) fn default_and_null_at(
    alloc: Global,
    text: &[u8],
    pieces: &[Piece],
    at: usize,
) -> Parsed<(Text, bool)>
    requires joined { are_joined (length text.now) pieces.now ≡ true }
    requires sound { are_sound text.now pieces.now ≡ true }
    ensures { GivesPart (lexemes text.now pieces.now) (λ x. (x.0, x.1)) result (default_and_null.read (drop at (lexemes text.now pieces.now))) }
{
    let end = run_end(alloc, text, pieces, at, true, true)?;
    let given = text_and_null(alloc, text, pieces, at, end)?;
    Ok((given, end))
}

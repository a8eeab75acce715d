//! Texts of views.
ghost use Rattle.std.specs.Prelude.{◌≡◌, drop, IfOk};
ghost use Rattle.ddl_part_laws.specs.Pieces.{GivesPart};
ghost use Rattle.row_texts.specs.ViewTexts.{view_text, view_body};

use crate::tokens::{all_read, all_tokens};
use copy_text::Text;
use ddl_pieces::{Pieces, ReadError};
use std::alloc::{AllocError, Global};

// A body with a semicolon behind it.
#[tactic(auto, unfolding(crate::specs::ViewTexts::view_text))]
fn view_text(alloc: Global, pieces: &Pieces<'_>, at: usize) -> Result<(Text, usize), ReadError>
    ensures { GivesPart pieces.now (λ t. t) result (view_text.read (drop at pieces.now)) }
{
    let (body, at) = pieces.expression(alloc, at)?;
    let at = pieces.sign(at, b';')?;
    Ok((body, at))
}

/// The body in the text of a view, without its semicolon; `None` where the text is none. Blanks and comments around are
/// free.
#[tactic(auto, unfolding(crate::specs::ViewTexts::view_body))]
pub fn view_body(alloc: Global, text: &[u8]) -> Result<Option<Text>, AllocError>
    ensures { IfOk result (λ body. body ≡ view_body text.now) }
{
    match all_tokens(alloc, text)? {
        Some(pieces) => all_read(&pieces, view_text(alloc, &pieces, 0)),
        None => Ok(None),
    }
}

//! Texts of defaults.
ghost use Rattle.std.specs.Prelude.{◌≡◌, IfOk};
ghost use Rattle.row_texts.specs.DefaultTexts.{default_said, is_default};

use crate::tokens::{all_read, all_tokens};
use copy_text::Text;
use std::alloc::{AllocError, Global};

/// The expression in the text of a default, from its first token to its last; `None` where the text is none. Blanks and
/// comments around are free.
#[tactic(auto, unfolding(crate::specs::DefaultTexts::default_said))]
pub fn default_said(alloc: Global, text: &[u8]) -> Result<Option<Text>, AllocError>
    ensures { IfOk result (λ said. said ≡ default_said text.now) }
{
    match all_tokens(alloc, text)? {
        Some(pieces) => all_read(&pieces, pieces.default_text(alloc, 0)),
        None => Ok(None),
    }
}

/// Whether a text is the expression of a default. Blanks and comments around are free.
#[tactic(auto, unfolding(crate::specs::DefaultTexts::is_default))]
pub fn is_default(alloc: Global, text: &[u8]) -> Result<bool, AllocError>
    ensures { IfOk result (λ is. is ≡ is_default text.now) }
{
    let said = default_said(alloc, text)?;
    Ok(said.is_some())
}

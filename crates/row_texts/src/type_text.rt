//! Texts of types.
ghost use Rattle.std.specs.Prelude.{◌≡◌, IfOk};
ghost use Rattle.row_texts.specs.TypeTexts.{type_named};

use crate::tokens::{all_read, all_tokens};
use cat_model::TypeName;
use std::alloc::{AllocError, Global};

/// The type that a text names; `None` where all of its tokens together name none. Blanks and comments around are free.
#[tactic(auto, unfolding(crate::specs::TypeTexts::type_named))]
pub fn type_named(alloc: Global, text: &[u8]) -> Result<Option<TypeName>, AllocError>
    ensures { IfOk result (λ name. name ≡ type_named text.now) }
{
    match all_tokens(alloc, text)? {
        Some(pieces) => all_read(&pieces, pieces.type_name(alloc, 0)),
        None => Ok(None),
    }
}

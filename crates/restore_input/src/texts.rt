//! The rows of entries, one after another.
ghost use Rattle.std.specs.Prelude.{◌≡◌, ◌++◌, ◌∷◌, [], OnOk};
ghost use Rattle.restore_input.specs.Answers.{text_seen, texts_seen};

use std::alloc::AllocError;

/// Adds the rows of an entry.
#[tactic(auto, using(std::proofs::lemmas::List::map_push))]
pub(crate) fn push_text(
    texts: &mut Vec<Option<Vec<u8>>>,
    rows: Option<Vec<u8>>,
) -> Result<(), AllocError>
    ensures { OnOk result (texts_seen texts.new.items ≡ texts_seen texts.old.items ++ text_seen rows ∷ []) }
{
    texts.push(rows)?;
    Ok(())
}

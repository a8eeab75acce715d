//! The labels of an enum.
ghost use Rattle.std.specs.Prelude.{◌≡◌, ℕ, List, IfOk};
ghost use Rattle.std.specs.List.{list_any};
ghost use Rattle.cat_model.specs.Lexemes.{same_text};
ghost use Rattle.field_values.specs.Labels.{AreLabels};

use copy_text::Text;
use std::alloc::{AllocError, Global};
use std::collections::HashSet;

/// The labels as a set.
pub(crate) fn label_set<'a>(
    alloc: Global,
    labels: &'a [Text],
) -> Result<HashSet<&'a [u8]>, AllocError>
    ensures { IfOk result (AreLabels labels.now) }
{
    let mut set = HashSet::new(alloc);
    for label in labels {
        set.insert(label.as_bytes())?;
    }
    Ok(set)
}

/// Whether a text is one of the labels.
pub(crate) fn is_label(set: &HashSet<&[u8]>, text: &[u8]) -> bool
    ensures { (labels : List (List ℕ)) → AreLabels labels set.now → result ≡ list_any (same_text text.now) labels }
{
    set.contains(text)
}

//! Entries, one after another, and as changes.
ghost use Rattle.std.specs.Prelude.{◌≡◌, [], ◌∷◌, ◌++◌, IfOk, OnOk};
ghost use Rattle.std.specs.FinMap.{empty, from_entries};
ghost use Rattle.cat_model.specs.Keys.{key_cmp};
ghost use Rattle.cat_model.specs.Trees.{changed};

use crate::named_map::Change;
use cat_model::{Key, Value};
use std::alloc::{AllocError, Global};

/// Keys with what stands under them, one after another.
pub type Entries = Vec<(Key, Value)>;

/// Adds a value under a key.
pub fn push_entry(entries: &mut Entries, key: Key, value: Value) -> Result<(), AllocError>
    ensures { OnOk result (entries.new.items ≡ entries.old.items ++ (key, value) ∷ []) }
{
    entries.push((key, value))?;
    Ok(())
}

/// The changes that put entries into a map without any, the last entry first, so that the first of a key counts.
pub(crate) fn backwards(alloc: Global, mut entries: Entries) -> Result<Vec<Change>, AllocError>
    ensures { IfOk result (λ changes. changed changes.items empty ≡ from_entries {R = key_cmp} entries.items) }
{
    let mut changes = Vec::new(alloc);
    'entries: while let Some((key, value)) = entries.pop() {
        changes.push((key, Some(value)))?;
    }
    Ok(changes)
}

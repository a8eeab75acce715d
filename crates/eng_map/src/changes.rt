//! Changes, one behind another.
ghost use Rattle.std.specs.Prelude.{◌≡◌, [], ◌∷◌, ◌++◌, Some, OnOk};

use crate::named_map::Change;
use cat_model::{Key, Value};
use std::alloc::AllocError;

/// A key gets a value.
pub fn set(changes: &mut Vec<Change>, key: Key, value: Value) -> Result<(), AllocError>
    ensures { OnOk result (changes.new.items ≡ changes.old.items ++ (key, Some value) ∷ []) }
{
    changes.push((key, Some(value)))?;
    Ok(())
}

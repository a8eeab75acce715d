//! Keys that were seen, and where each stood first.
ghost use Rattle.std.specs.Prelude.{◌≡◌, ◌<◌, ◌+◌, ◌++◌, ◌∷◌, [], List, ℕ, Option, Some, None, length, IfOk, IfNone, OnOk};
ghost use Rattle.cat_model.specs.Tables.{place_of};
ghost use Rattle.row_keys.specs.Known.{IsKnown, AreAmong, is_orphan};

use crate::row_key::RowKey;
use std::alloc::AllocError;
use std::collections::{HashMap, HashSet};

// Adds the key of the row with this number; the answer is the number of the first row before it that has the key.
fn add_key<'a>(
    known: &mut HashMap<RowKey<'a>, u64>,
    number: u64,
    key: RowKey<'a>,
) -> Result<Option<u64>, AllocError>
    ensures first { IfOk result (λ first. (before : List (Option (List (List ℕ)))) → IsKnown before known.old → first ≡ place_of 1 (Some key.entry) before) }
    ensures known { IfOk result (λ first. (before : List (Option (List (List ℕ)))) → IsKnown before known.old → number ≡ length before + 1 → IfNone first (IsKnown (before ++ Some key.entry ∷ []) known.new)) }
{
    Ok(known.insert(key, number)?)
}

/// Adds the key of the row with this number behind those before it; a key that has a null in it is `None`. The answer
/// is the number of the first row before it that has the key.
pub(crate) fn add<'a>(
    known: &mut HashMap<RowKey<'a>, u64>,
    number: u64,
    key: Option<RowKey<'a>>,
) -> Result<Option<u64>, AllocError>
    ensures first { IfOk result (λ first. (before : List (Option (List (List ℕ)))) → IsKnown before known.old → first ≡ place_of 1 key.entry before) }
    ensures known { IfOk result (λ first. (before : List (Option (List (List ℕ)))) → IsKnown before known.old → number ≡ length before + 1 → IfNone first (IsKnown (before ++ key.entry ∷ []) known.new)) }
{
    match key {
        Some(key) => Ok(add_key(known, number, key)?),
        None => Ok(None),
    }
}

// Adds a key, which may stand there already.
fn add_parent_key<'a>(parents: &mut HashSet<RowKey<'a>>, key: RowKey<'a>) -> Result<(), AllocError>
    ensures { OnOk result ((keys : List (Option (List (List ℕ)))) → AreAmong keys parents.old → AreAmong (keys ++ Some key.entry ∷ []) parents.new) }
{
    parents.insert(key)?;
    Ok(())
}

/// Adds the key of a parent to those of the others; a key that has a null in it is `None`.
pub(crate) fn add_parent<'a>(
    parents: &mut HashSet<RowKey<'a>>,
    key: Option<RowKey<'a>>,
) -> Result<(), AllocError>
    ensures { OnOk result ((keys : List (Option (List (List ℕ)))) → AreAmong keys parents.old → AreAmong (keys ++ key.entry ∷ []) parents.new) }
{
    match key {
        Some(key) => Ok(add_parent_key(parents, key)?),
        None => Ok(()),
    }
}

/// Whether a key without a null isn't among those of the parents.
pub(crate) fn is_orphan<'a>(parents: &HashSet<RowKey<'a>>, key: &Option<RowKey<'a>>) -> bool
    ensures { (keys : List (Option (List (List ℕ)))) → AreAmong keys parents.now → result ≡ is_orphan keys key.now }
{
    match key {
        Some(key) => !parents.contains(key),
        None => false,
    }
}

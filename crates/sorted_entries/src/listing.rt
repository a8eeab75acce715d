//! The entries in the order of keys.
ghost use Rattle.std.specs.Prelude.{◌≡◌, map, IfOk};
ghost use Rattle.std.specs.FinMap.{entries, from_entries};
ghost use Rattle.std.specs.List.{IsDistinct};
ghost use Rattle.std.specs.Map.{keys_of};
ghost use Rattle.std.specs.Map.Iter.{deref_pair};
ghost use Rattle.cat_model.specs.declared.key.Key.{Key as TheKey};
ghost use Rattle.cat_model.specs.declared.value.Value.{Value as TheValue};
ghost use Rattle.cat_model.specs.Keys.{key_eq};

use cat_model::{Key, Value};
use eng_map::NamedMap;
use indexmap::map::Iter;
use std::alloc::{AllocError, Global};

// Entries as a list.
fn collected<'a>(
    alloc: Global,
    entries: Iter<'a, Key, Value>,
) -> Result<Vec<(&'a Key, &'a Value)>, AllocError>
    ensures { IfOk result (λ found. map (deref_pair {K = TheKey} {X = TheValue}) found.items ≡ entries.entry) }
{
    let mut found = Vec::new(alloc);
    for entry in entries {
        found.push(entry)?;
    }
    Ok(found)
}

// All entries, in no order.
fn unordered(alloc: Global, named: &NamedMap) -> Result<Vec<(&Key, &Value)>, AllocError>
    ensures seen { IfOk result (λ found. from_entries (map (deref_pair {K = TheKey} {X = TheValue}) found.items) ≡ named.now) }
    ensures distinct { IfOk result (λ found. IsDistinct key_eq (keys_of (map (deref_pair {K = TheKey} {X = TheValue}) found.items))) }
{
    collected(alloc, named.iter())
}

/// The entries of a catalogue in the order of keys. The only error is want of memory.
pub fn in_order(alloc: Global, named: &NamedMap) -> Result<Vec<(&Key, &Value)>, AllocError>
    ensures { IfOk result (λ found. map (deref_pair {K = TheKey} {X = TheValue}) found.items ≡ entries named.now) }
{
    let mut found = unordered(alloc, named)?;
    found.sort_by(|a, b| a.0.cmp(b.0))?;
    Ok(found)
}

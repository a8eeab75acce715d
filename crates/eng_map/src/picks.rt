//! The entries of a class.
ghost use Rattle.std.specs.Prelude.{◌≡◌, map, IfOk};
ghost use Rattle.std.specs.BTreeSet.{IsOrdered};
ghost use Rattle.std.specs.FinMap.{from_entries};
ghost use Rattle.std.specs.Map.Iter.{deref_pair};
ghost use Rattle.std.specs.Option.{option_map};
ghost use Rattle.cat_model.specs.declared.value.Value.{Value as TheValue};
ghost use Rattle.cat_model.specs.declared.key.Key.{Key as TheKey};
ghost use Rattle.cat_model.specs.Keys.{key_cmp};
ghost use Rattle.eng_map.specs.Picks.{pick, picked};

use crate::classes::is_of_class;
use cat_model::{Class, Key, Value};
use indexmap::IndexMap;
use std::alloc::{AllocError, Global};
use std::collections::BTreeSet;

// The entry of a key, where it is there and of the class.
fn pick<'m>(
    alloc: Global,
    values: &'m IndexMap<Key, Value>,
    class: &Class,
    key: &Key,
) -> Result<Option<(&'m Key, &'m Value)>, AllocError>
    ensures { IfOk result (λ found. option_map (deref_pair {K = TheKey} {X = TheValue}) found ≡ option_map {U = TheKey × TheValue} (λ v. (key.now, v)) (pick (from_entries values.now.entries) class.now key.now)) }
{
    match values.get_key_value(key) {
        Some((key, value)) => {
            if is_of_class(alloc, class, key, value)? {
                Ok(Some((key, value)))
            } else {
                Ok(None)
            }
        }
        None => Ok(None),
    }
}

/// The entries of a class among some keys, in the order of these.
pub(crate) fn picked<'m>(
    alloc: Global,
    values: &'m IndexMap<Key, Value>,
    class: &Class,
    keys: &BTreeSet<Key>,
) -> Result<Vec<(&'m Key, &'m Value)>, AllocError>
    ensures found { IfOk result (λ found. map (deref_pair {K = TheKey} {X = TheValue}) found.items ≡ picked (from_entries values.now.entries) class.now keys.now.keys) }
    ensures ordered { IsOrdered key_cmp keys.now }
{
    let mut found = Vec::new(alloc);
    for key in keys.iter() {
        if let Some(entry) = pick(alloc, values, class, key)? {
            found.push(entry)?;
        }
    }
    Ok(found)
}

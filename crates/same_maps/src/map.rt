//! Whether two catalogues by names are the same.
ghost use Rattle.std.specs.Prelude.{◌≡◌, ◌↔◌, Some, IsTrue, IsSome};
ghost use Rattle.std.specs.FinMap.{get};
ghost use Rattle.std.specs.List.{AllByRecursion};
ghost use Rattle.cat_model.specs.declared.key.Key.{Key as TheKey};
ghost use Rattle.cat_model.specs.declared.value.Value.{Value as TheValue};

use crate::value::same_value;
use cat_model::{Key, Value};
use eng_map::NamedMap;
use indexmap::map::Iter;

// Whether a key has this value.
fn is_at(named: &NamedMap, key: &Key, value: &Value) -> bool
    ensures { IsTrue result ↔ (get named.now key.now ≡ Some value.now) }
{
    match named.get(key) {
        Some(other) => same_value(other, value),
        None => false,
    }
}

// Whether each of these entries is in a map.
fn are_all_in(entries: Iter<'_, Key, Value>, named: &NamedMap) -> bool
    ensures { IsTrue result ↔ AllByRecursion (λ (e : TheKey × TheValue). get named.now e.0 ≡ Some e.1) entries.entry }
{
    for (key, value) in entries {
        if !is_at(named, key, value) {
            return false;
        }
    }
    true
}

// Whether each of these keys has a value.
fn are_keys_in(entries: Iter<'_, Key, Value>, named: &NamedMap) -> bool
    ensures { IsTrue result ↔ AllByRecursion (λ (e : TheKey × TheValue). IsSome (get named.now e.0)) entries.entry }
{
    for (key, _) in entries {
        if named.get(key).is_none() {
            return false;
        }
    }
    true
}

/// Whether two catalogues have the same keys with the same values.
pub fn same_maps(a: &NamedMap, b: &NamedMap) -> bool
    ensures { IsTrue result ↔ (a.now ≡ b.now) }
{
    are_all_in(a.iter(), b) && are_keys_in(b.iter(), a)
}

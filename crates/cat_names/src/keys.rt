//! Sets of keys.
ghost use Rattle.std.specs.Prelude.{◌≡◌, [], ◌∷◌, ◌++◌, not, List, IfOk, OnOk};
ghost use Rattle.std.specs.BTreeSet.{contains};
ghost use Rattle.cat_names.specs.Indexed.{AreKeys};

use std::alloc::AllocError;
use std::collections::BTreeSet;

/// Adds a key, and answers whether it is there for the first time.
pub fn add_key<K: Ord + Drop>(keys: &mut BTreeSet<K>, key: K) -> Result<bool, AllocError>
    ensures first { IfOk result (λ first. first ≡ not (contains K.cmp keys.old key)) }
    ensures added { OnOk result ((ks : List K) → AreKeys K.cmp keys.old ks → AreKeys K.cmp keys.new (ks ++ key ∷ [])) }
{
    Ok(keys.insert(key)?)
}

//! What stands first beside keys.
ghost use Rattle.std.specs.Prelude.{[], ◌∷◌, ◌++◌, List, OnOk};
ghost use Rattle.obj_beside.specs.Firsts.{AreFirsts};

use std::alloc::AllocError;
use std::collections::BTreeMap;

/// Keeps what stands first beside a key: a key that is there already keeps what stands beside it. The only error is that
/// memory ran out.
pub fn add_first<K: Ord + Drop, A: Drop>(
    firsts: &mut BTreeMap<K, A>,
    key: K,
    value: A,
) -> Result<(), AllocError>
    ensures { OnOk result ((es : List (K × A)) → AreFirsts K.cmp firsts.old es → AreFirsts K.cmp firsts.new (es ++ (key, value) ∷ [])) }
{
    if firsts.contains_key(&key) {
        return Ok(());
    }
    firsts.insert(key, value)?;
    Ok(())
}

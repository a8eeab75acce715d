//! Sets of the keys of tables.
ghost use Rattle.std.specs.Prelude.{◌≡◌, [], ◌∷◌, ◌++◌, ℕ, List, option_map, filter_map, IfOk, OnOk};
ghost use Rattle.cat_model.specs.Values.{Bytes};
ghost use Rattle.constraint_table.specs.KeySets.{AreNames, is_key_on, AreKeysOn};

use copy_text::Name;
use std::alloc::{AllocError, Global};
use std::collections::BTreeSet;

/// Keys, each a table's oid and the set of the key's columns.
pub(crate) type KeySet = BTreeSet<(u32, BTreeSet<Name>)>;

// The set of these names.
fn name_set(alloc: Global, names: &[Name]) -> Result<BTreeSet<Name>, AllocError>
    ensures { IfOk result (λ set. AreNames set names.now) }
{
    let mut set = BTreeSet::new(alloc);
    for name in names {
        set.insert(name.clone()?)?;
    }
    Ok(set)
}

/// Adds a key of a table.
pub(crate) fn add_columns(
    alloc: Global,
    keys: &mut KeySet,
    table: u32,
    names: &[Name],
) -> Result<(), AllocError>
    ensures { OnOk result ((ks : List (ℕ × List Bytes)) → AreKeysOn keys.old ks → AreKeysOn keys.new (ks ++ (table, names.now) ∷ [])) }
{
    let columns = name_set(alloc, names)?;
    keys.insert((table, columns))?;
    Ok(())
}

/// Whether one of the keys is on this table and the set of these columns.
pub(crate) fn is_key_on(
    alloc: Global,
    keys: &KeySet,
    table: u32,
    names: &[Name],
) -> Result<bool, AllocError>
    ensures { IfOk result (λ is. (ks : List (ℕ × List Bytes)) → AreKeysOn keys.now ks → is ≡ is_key_on ks table names.now) }
{
    let columns = name_set(alloc, names)?;
    Ok(keys.contains(&(table, columns)))
}

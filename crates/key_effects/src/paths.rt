//! Where constraints and indexes stand.
ghost use Rattle.std.specs.Prelude.{◌≡◌, [], ◌∷◌, ◌++◌, Some, IfOk, OnOk};
ghost use Rattle.cat_model.specs.declared.key.Key.TheVariants as key;
ghost use Rattle.cat_model.specs.declared.value.Value.TheVariants as value;
ghost use Rattle.cat_model.specs.Conditions.{free};
ghost use Rattle.cat_model.specs.KeyEffects.{index_path};
ghost use Rattle.cat_model.specs.Trees.{Tree, outcome, seen};
ghost use Rattle.eng_steps.specs.Outcomes.{Steps};

use cat_model::{Items, Key, QName, Value};
use copy_text::Name;
use eng_map::{Change, NamedMap};
use eng_steps::{ApplyError, free, set};
use std::alloc::AllocError;

// An index, a constraint's too, stands among the relations of its table's schema.
fn index_path(table: &QName, name: &Name) -> Result<QName, AllocError>
    ensures { IfOk result (λ path. path ≡ index_path table.now name.now) }
{
    let name = name.clone()?;
    Ok(QName {
        schema: table.schema.clone()?,
        name,
    })
}

/// A table's path with the name of what stands under it, of which the key of a constraint or an index is made.
pub(crate) fn under_table(table: &QName, name: &Name) -> Result<(QName, Name), AllocError>
    ensures { IfOk result (λ under. under ≡ (table.now, name.now)) }
{
    let name = name.clone()?;
    Ok((table.clone()?, name))
}

/// The same names.
pub(crate) fn names_of(names: &Items<Name>) -> Result<Items<Name>, AllocError>
    ensures { IfOk result (λ copy. copy ≡ names.now) }
{
    names.clone()
}

/// An index, a constraint's too, becomes a relation of its table's schema.
pub(crate) fn set_index_of(
    changes: &mut Vec<Change>,
    table: &QName,
    name: &Name,
) -> Result<(), AllocError>
    ensures { OnOk result (changes.new.items ≡ changes.old.items ++ (key.Rel (index_path table.now name.now), Some (value.IndexOf table.now)) ∷ []) }
{
    let path = index_path(table, name)?;
    let table = table.clone()?;
    set(changes, Key::Rel(path), Value::IndexOf(table))
}

/// The table has no constraint of this name, else `Exists`.
pub(crate) fn free_constraint(
    named: &NamedMap,
    table: &QName,
    name: &Name,
) -> Result<(), ApplyError>
    ensures { (next : Tree) → Steps result (outcome (free (key.Con table.now name.now) next) (seen named.now)) (λ _. outcome next (seen named.now)) }
{
    let (table, name) = under_table(table, name)?;
    free(named, Key::Con(table, name))
}

/// No relation stands where an index of this name would, else `Exists`.
pub(crate) fn free_index_relation(
    named: &NamedMap,
    table: &QName,
    name: &Name,
) -> Result<(), ApplyError>
    ensures { (next : Tree) → Steps result (outcome (free (key.Rel (index_path table.now name.now)) next) (seen named.now)) (λ _. outcome next (seen named.now)) }
{
    free(named, Key::Rel(index_path(table, name)?))
}

/// The table has no index of this name that isn't a constraint's, else `Exists`.
pub(crate) fn free_index(named: &NamedMap, table: &QName, name: &Name) -> Result<(), ApplyError>
    ensures { (next : Tree) → Steps result (outcome (free (key.Index table.now name.now) next) (seen named.now)) (λ _. outcome next (seen named.now)) }
{
    let (table, name) = under_table(table, name)?;
    free(named, Key::Index(table, name))
}

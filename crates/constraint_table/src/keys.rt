//! The keys of a catalogue's tables, to which foreign keys may refer.
ghost use Rattle.std.specs.Prelude.{◌≡◌, [], ◌∷◌, ◌++◌, ℕ, List, option_map, filter_map, IfOk, OnOk};
ghost use Rattle.std.specs.Option.{option_and_then};
ghost use Rattle.cat_model.specs.Values.{Bytes};
ghost use Rattle.constraint_table.specs.KeySets.{AreKeysOn};
ghost use Rattle.constraint_table.specs.Keys.{key_columns, columns_of_key, unique_columns, on_table, key_of_constraint, key_of_index, keys_of};

use crate::constraint_text::{ConstraintText, constraint_said};
use crate::key_set::{KeySet, add_columns};
use cat_book::is_key;
use cat_model::Items;
use cat_rows::{Catalogue, ConstraintRow, IndexRow};
use copy_text::Name;
use row_texts::{IndexText, index_said};
use std::alloc::{AllocError, Global};
use std::collections::BTreeSet;
use stmt_refs::plain_columns;

// The columns of a primary key or a unique constraint.
fn key_columns(said: Option<ConstraintText>) -> Option<Items<Name>>
    ensures { result ≡ option_and_then key_columns said }
{
    match said {
        Some(ConstraintText::Primary(names)) => Some(names),
        Some(ConstraintText::Unique(names)) => Some(names),
        _ => None,
    }
}

// The columns of a unique index, where they are plain.
fn unique_columns(
    alloc: Global,
    said: &Option<IndexText>,
) -> Result<Option<Items<Name>>, AllocError>
    ensures { IfOk result (λ names. names ≡ option_and_then unique_columns said.now) }
{
    match said {
        Some(said) => {
            if said.unique {
                plain_columns(alloc, said.rest.as_bytes())
            } else {
                Ok(None)
            }
        }
        None => Ok(None),
    }
}

// Adds a key of a table, where there is one.
fn add_key(
    alloc: Global,
    keys: &mut KeySet,
    table: u32,
    names: Option<Items<Name>>,
) -> Result<(), AllocError>
    ensures { OnOk result ((ks : List (ℕ × List Bytes)) → AreKeysOn keys.old ks → AreKeysOn keys.new (ks ++ filter_map (λ k. k) (on_table table names ∷ []))) }
{
    if let Some(names) = names {
        add_columns(alloc, keys, table, names.as_slice())?;
    }
    Ok(())
}

// The columns that a constraint is a key on.
fn columns_of_key(alloc: Global, row: &ConstraintRow) -> Result<Option<Items<Name>>, AllocError>
    ensures { IfOk result (λ names. names ≡ columns_of_key row.now) }
{
    if !is_key(row) {
        return Ok(None);
    }
    let said = constraint_said(alloc, row.condef.as_bytes())?;
    let names = key_columns(said);
    Ok(names)
}

// Adds what a constraint is a key of.
fn add_constraint(alloc: Global, keys: &mut KeySet, row: &ConstraintRow) -> Result<(), AllocError>
    ensures { OnOk result ((ks : List (ℕ × List Bytes)) → AreKeysOn keys.old ks → AreKeysOn keys.new (ks ++ filter_map (λ k. k) (key_of_constraint row.now ∷ []))) }
{
    let names = columns_of_key(alloc, row)?;
    add_key(alloc, keys, row.conrelid, names)?;
    Ok(())
}

// Adds what an index is a key of.
fn add_index(alloc: Global, keys: &mut KeySet, row: &IndexRow) -> Result<(), AllocError>
    ensures { OnOk result ((ks : List (ℕ × List Bytes)) → AreKeysOn keys.old ks → AreKeysOn keys.new (ks ++ filter_map (λ k. k) (key_of_index row.now ∷ []))) }
{
    let said = index_said(alloc, row.indexdef.as_bytes())?;
    let names = unique_columns(alloc, &said)?;
    add_key(alloc, keys, row.indrelid, names)?;
    Ok(())
}

// The keys that constraints are.
fn constraint_keys(alloc: Global, rows: &[ConstraintRow]) -> Result<KeySet, AllocError>
    ensures { IfOk result (λ keys. AreKeysOn keys (filter_map key_of_constraint rows.now)) }
{
    let mut keys = BTreeSet::new(alloc);
    for row in rows {
        add_constraint(alloc, &mut keys, row)?;
    }
    Ok(keys)
}

// Adds the keys that indexes are.
fn add_indexes(alloc: Global, keys: &mut KeySet, rows: &[IndexRow]) -> Result<(), AllocError>
    ensures { OnOk result ((ks : List (ℕ × List Bytes)) → AreKeysOn keys.old ks → AreKeysOn keys.new (ks ++ filter_map key_of_index rows.now)) }
{
    for row in rows {
        add_index(alloc, keys, row)?;
    }
    Ok(())
}

/// The keys of all tables: primary keys, unique constraints, and unique indexes over plain columns.
pub(crate) fn keys_of(alloc: Global, cat: &Catalogue) -> Result<KeySet, AllocError>
    ensures { IfOk result (λ keys. AreKeysOn keys (keys_of cat.now)) }
{
    let mut keys = constraint_keys(alloc, cat.pg_constraint.as_slice())?;
    add_indexes(alloc, &mut keys, cat.pg_index.as_slice())?;
    Ok(keys)
}

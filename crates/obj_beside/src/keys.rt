//! The keys of tables, to which foreign keys may refer.
ghost use Rattle.std.specs.Prelude.{◌≡◌, [], ◌∷◌, ◌++◌, map, filter_map, IfOk, OnOk};
ghost use Rattle.std.specs.List.{slice_get, list_all, list_any};
ghost use Rattle.std.specs.Option.{option_and_then};
ghost use Rattle.cat_model.specs.Lexemes.{same_text};
ghost use Rattle.cat_model.specs.Tables.{same_set};
ghost use Rattle.constraint_table.specs.Keys.{key_columns, columns_of_key, unique_columns};
ghost use Rattle.obj_graph.specs.ConstraintLinks.{key_constraint, key_index, key_on, keys_of};
ghost use Rattle.obj_beside.specs.Keys.{by_table};

use cat_book::is_key;
use cat_model::Items;
use cat_rows::{Catalogue, ConstraintRow, IndexRow};
use constraint_table::{ConstraintText, constraint_said};
use copy_text::Name;
use graph_parts::ObjId;
use obj_graph::{KeyOf, constraint_id, relation_id};
use oid_groups::Groups;
use row_texts::{IndexText, index_said};
use std::alloc::{AllocError, Global};
use std::marker::Model;
use stmt_refs::plain_columns;

// The columns of a primary key or a unique constraint.
fn key_columns(said: Option<ConstraintText>) -> Option<Items<Name>>
    ensures { result ≡ option_and_then key_columns said }
{
    match said {
        Some(ConstraintText::Primary(names)) => Some(names),
        Some(ConstraintText::Unique(names)) => Some(names),
        _ => None,
    }
}

// The columns that a constraint is a key on.
fn columns_of_key(alloc: Global, row: &ConstraintRow) -> Result<Option<Items<Name>>, AllocError>
    ensures { IfOk result (λ names. names ≡ columns_of_key row.now) }
{
    if !is_key(row) {
        return Ok(None);
    }
    let said = constraint_said(alloc, row.condef.as_bytes())?;
    Ok(key_columns(said))
}

// The columns of a unique index, where they are plain.
fn unique_columns(
    alloc: Global,
    said: &Option<IndexText>,
) -> Result<Option<Items<Name>>, AllocError>
    ensures { IfOk result (λ names. names ≡ option_and_then unique_columns said.now) }
{
    match said {
        Some(said) => {
            if said.unique {
                plain_columns(alloc, said.rest.as_bytes())
            } else {
                Ok(None)
            }
        }
        None => Ok(None),
    }
}

// A constraint as a key of its table.
fn key_constraint(alloc: Global, row: &ConstraintRow) -> Result<Option<KeyOf>, AllocError>
    ensures { IfOk result (λ key. key ≡ key_constraint row.now) }
{
    match columns_of_key(alloc, row)? {
        Some(columns) => Ok(Some(KeyOf {
            table: row.conrelid,
            columns,
            id: constraint_id(row.oid),
        })),
        None => Ok(None),
    }
}

// An index as a key of its table.
fn key_index(alloc: Global, row: &IndexRow) -> Result<Option<KeyOf>, AllocError>
    ensures { IfOk result (λ key. key ≡ key_index row.now) }
{
    let said = index_said(alloc, row.indexdef.as_bytes())?;
    match unique_columns(alloc, &said)? {
        Some(columns) => Ok(Some(KeyOf {
            table: row.indrelid,
            columns,
            id: relation_id(row.indexrelid),
        })),
        None => Ok(None),
    }
}

// Adds a key, where there is one.
fn push_key(keys: &mut Vec<KeyOf>, key: Option<KeyOf>) -> Result<(), AllocError>
    ensures { OnOk result (keys.new.items ≡ keys.old.items ++ filter_map (λ k. k) (key ∷ [])) }
{
    if let Some(key) = key {
        keys.push(key)?;
    }
    Ok(())
}

// Adds the keys that constraints are.
fn add_constraints(
    alloc: Global,
    rows: &[ConstraintRow],
    keys: &mut Vec<KeyOf>,
) -> Result<(), AllocError>
    ensures { OnOk result (keys.new.items ≡ keys.old.items ++ filter_map key_constraint rows.now) }
{
    for row in rows {
        let key = key_constraint(alloc, row)?;
        push_key(keys, key)?;
    }
    Ok(())
}

// Adds the keys that indexes are.
fn add_indexes(alloc: Global, rows: &[IndexRow], keys: &mut Vec<KeyOf>) -> Result<(), AllocError>
    ensures { OnOk result (keys.new.items ≡ keys.old.items ++ filter_map key_index rows.now) }
{
    for row in rows {
        let key = key_index(alloc, row)?;
        push_key(keys, key)?;
    }
    Ok(())
}

// The keys of all tables: primary keys, unique constraints, and unique indexes over plain columns.
#[tactic(auto, unfolding(obj_graph::specs::ConstraintLinks::keys_of))]
fn keys_of(alloc: Global, cat: &Catalogue) -> Result<Vec<KeyOf>, AllocError>
    ensures { IfOk result (λ keys. keys.items ≡ keys_of cat.now) }
{
    let mut keys = Vec::new(alloc);
    add_constraints(alloc, cat.pg_constraint.as_slice(), &mut keys)?;
    add_indexes(alloc, cat.pg_index.as_slice(), &mut keys)?;
    Ok(keys)
}

// The tables of keys, each with one number, so that a group has its keys as they stand.
fn tables_of(alloc: Global, keys: &[KeyOf]) -> Result<Vec<(u32, i64)>, AllocError>
    ensures { IfOk result (λ tables. tables.items ≡ map by_table keys.now) }
{
    let mut tables = Vec::new(alloc);
    for key in keys {
        tables.push((key.table, 0))?;
    }
    Ok(tables)
}

// Keys by their tables.
fn in_groups(alloc: Global, keys: &[KeyOf]) -> Result<Groups, AllocError>
    ensures { IfOk result (λ groups. groups ≡ map by_table keys.now) }
{
    let tables = tables_of(alloc, keys)?;
    Groups::of(alloc, tables)
}

// ---- keys on columns

fn is_one_of(name: &Name, all: &[Name]) -> bool
    ensures { result ≡ list_any (same_text name.now) all.now }
{
    all.iter().any(|other| name == other)
}

fn is_subset(names: &[Name], all: &[Name]) -> bool
    ensures { result ≡ list_all (λ x. list_any (same_text x) all.now) names.now }
{
    names.iter().all(|name| is_one_of(name, all))
}

// Whether each of these names is one of those, and the other way round.
fn is_same_set(a: &[Name], b: &[Name]) -> bool
    ensures { result ≡ same_set a.now b.now }
{
    is_subset(a, b) && is_subset(b, a)
}

// A key, where it is one of this table on this set of columns.
fn key_on(key: &KeyOf, table: u32, names: &[Name]) -> Option<ObjId>
    ensures { result ≡ key_on table names.now key.now }
{
    if table == key.table && is_same_set(names, key.columns.as_slice()) {
        Some(key.id)
    } else {
        None
    }
}

// The same of the key at a place.
fn key_at(keys: &[KeyOf], place: usize, table: u32, names: &[Name]) -> Option<ObjId>
    ensures { result ≡ option_and_then (key_on table names.now) (slice_get keys.now place) }
{
    match keys.get(place) {
        Some(key) => key_on(key, table, names),
        None => None,
    }
}

// The same of the keys at these places.
fn keys_at(
    alloc: Global,
    keys: &[KeyOf],
    places: &[usize],
    table: u32,
    names: &[Name],
) -> Result<Vec<ObjId>, AllocError>
    ensures { IfOk result (λ ids. ids.items ≡ filter_map (λ place. option_and_then (key_on table names.now) (slice_get keys.now place)) places.now) }
{
    places
        .iter()
        .filter_map(|place| key_at(keys, *place, table, names))
        .collect(alloc)
}

/// The keys of all tables, found by their tables. A contract sees the list of them.
#[derive(Drop)]
pub(crate) struct Keys {
    keys: Vec<KeyOf>,
    groups: Groups,
}

impl Model for Keys {
    ghost use Rattle.std.specs.Prelude.{◌≡◌, List, map};
    ghost use Rattle.obj_graph.specs.declared.key_of.KeyOf.{KeyOf as KeyValue};
    ghost use Rattle.obj_beside.specs.Keys.{by_table};

    ghost Value = { List KeyValue };

    ghost view = { λ k. k.keys.items };

    ghost invariant = { λ k. k.groups ≡ map by_table k.keys.items };
}

impl Keys {
    /// The primary keys, the unique constraints, and the unique indexes over plain columns of a catalogue.
    pub(crate) fn of(alloc: Global, cat: &Catalogue) -> Result<Keys, AllocError>
        ensures { IfOk result (λ keys. keys ≡ keys_of cat.now) }
    {
        let keys = keys_of(alloc, cat)?;
        let groups = in_groups(alloc, &keys)?;
        Ok(Keys { keys, groups })
    }

    /// The keys of a table on this set of columns.
    pub(crate) fn on(
        &self,
        alloc: Global,
        table: u32,
        names: &[Name],
    ) -> Result<Vec<ObjId>, AllocError>
        ensures { IfOk result (λ ids. ids.items ≡ filter_map (key_on table names.now) self.now) }
    {
        let ids = keys_at(alloc, &self.keys, self.groups.group(table), table, names)?;
        Ok(ids)
    }
}

//! What the rows of a table refer to.
ghost use Rattle.std.specs.Prelude.{◌≡◌, None, Some, map, IfOk, IsTrue};
ghost use Rattle.std.specs.FinMap.{get};
ghost use Rattle.std.specs.List.{AllByRecursion, filter_map};
ghost use Rattle.std.specs.Map.Iter.{deref_pair};
ghost use Rattle.std.specs.Option.{option_map};
ghost use Rattle.cat_model.specs.declared.key.Key.{Key as TheKey};
ghost use Rattle.cat_model.specs.declared.key.Key.TheVariants as key;
ghost use Rattle.cat_model.specs.declared.value.Value.{Value as TheValue};
ghost use Rattle.cat_model.specs.CopyEffect.{Foreign, foreign_in, foreign_of};
ghost use Rattle.cat_model.specs.KeyEffects.{columns_of};
ghost use Rattle.cat_model.specs.RowTexts.{rows_held};
ghost use Rattle.cat_model.specs.Tables.{orphan};
ghost use Rattle.plain_loads.specs.Meeting.{HasParents, Parts, parent_text, parts};

use crate::parents::{columns_under, parent_text};
use crate::uniques::one_place;
use cat_book::Book;
use cat_model::{Constraint, Key, QName, Value};
use cat_names::DataSet;
use copy_text::Name;
use data_rows::read_rows;
use eng_map::NamedMap;
use field_values::TableColumns;
use plain_rows::{key_set, keys_are_among};
use row_keys::{JoinedRows, orphan};
use std::alloc::{AllocError, Global};

// The columns of a key: those of their table, and their names; and the text of the table's rows.
#[derive(Drop)]
struct Keyed<'k, 'c> {
    columns: &'k TableColumns<'c>,
    names: &'k [Name],
    text: &'k [u8],
}

// Whether each key of a text is one of its parent's.
fn keys_found(
    alloc: Global,
    child: &Keyed<'_, '_>,
    parent: &Keyed<'_, '_>,
) -> Result<bool, AllocError>
    ensures { IfOk result (λ found. IsTrue found → orphan child.now.columns.now child.now.names.now (rows_held child.now.text.now) parent.now.columns.now parent.now.names.now (rows_held parent.now.text.now) ≡ None) }
{
    let Some(place) = one_place(child.columns, child.names) else {
        return rows_found(alloc, child, parent);
    };
    let Some(parent_place) = one_place(parent.columns, parent.names) else {
        return rows_found(alloc, child, parent);
    };
    let Some(keys) = key_set(alloc, parent.columns, parent_place, parent.text)? else {
        return Ok(false);
    };
    keys_are_among(alloc, child.columns, place, child.text, &keys)
}

// The same of a key on several columns: the rows of both are made.
fn rows_found(
    alloc: Global,
    child: &Keyed<'_, '_>,
    parent: &Keyed<'_, '_>,
) -> Result<bool, AllocError>
    ensures { IfOk result (λ found. IsTrue found → orphan child.now.columns.now child.now.names.now (rows_held child.now.text.now) parent.now.columns.now parent.now.names.now (rows_held parent.now.text.now) ≡ None) }
{
    let rows = read_rows(alloc, child.text)?;
    let parents = read_rows(alloc, parent.text)?;
    let all = JoinedRows::new(&[], &parents);
    let lost = orphan(
        alloc,
        child.columns,
        child.names,
        &rows,
        parent.columns,
        parent.names,
        &all,
    )?;
    match lost {
        Some(_) => Ok(false),
        None => Ok(true),
    }
}

// The same where the parent's columns are those of a table.
fn keys_found_in(
    alloc: Global,
    named: &NamedMap,
    child: &Keyed<'_, '_>,
    parent: &QName,
    names: &[Name],
    text: &[u8],
) -> Result<bool, AllocError>
    ensures { IfOk result (λ found. IsTrue found → orphan child.now.columns.now child.now.names.now (rows_held child.now.text.now) (columns_of (get named.now (key.Rel parent.now))) names.now (rows_held text.now) ≡ None) }
{
    let columns = columns_under(named, parent)?;
    let table = TableColumns::new(alloc, columns)?;
    let keyed = Keyed {
        columns: &table,
        names,
        text,
    };
    keys_found(alloc, child, &keyed)
}

/// What tables are tried with: the catalogue by names, whose tables need no rows, its book, and the texts of all tables.
#[derive(Drop)]
pub(crate) struct Tables<'t, 'b> {
    pub(crate) named: &'t NamedMap,
    pub(crate) book: &'t Book<'b>,
    pub(crate) rows: &'t DataSet,
}

// The columns of a foreign key, its parent, and the columns there.
fn constraint_parts<'m>(
    name: &Name,
    constraint: &'m Constraint,
) -> Option<(&'m [Name], &'m QName, &'m [Name])>
    ensures { option_map {U = Parts} (λ p. (p.0.now, p.1.now, p.2.now)) result ≡ option_map parts (foreign_of name.now constraint.now constraint.now.parent) }
{
    match &constraint.parent {
        Some((parent, names)) => Some((constraint.columns.as_slice(), parent, names.as_slice())),
        None => None,
    }
}

pub(crate) fn foreign_parts<'m>(
    key: &'m Key,
    value: &'m Value,
) -> Option<(&'m [Name], &'m QName, &'m [Name])>
    ensures { option_map {U = Parts} (λ p. (p.0.now, p.1.now, p.2.now)) result ≡ option_map parts (foreign_in (key.now, value.now)) }
{
    match key {
        Key::Con(_, name) => match value {
            Value::Constraint(constraint) => constraint_parts(name, constraint),
            _ => None,
        },
        _ => None,
    }
}

// Whether each row has a parent, where the entry is a foreign key.
fn entry_has_parents(
    alloc: Global,
    tables: &Tables<'_, '_>,
    q: &QName,
    columns: &TableColumns<'_>,
    key: &Key,
    value: &Value,
    text: &[u8],
) -> Result<bool, AllocError>
    ensures { IfOk result (λ has. IsTrue has → (f : Foreign) → foreign_in (key.now, value.now) ≡ Some f → HasParents tables.now.named.now tables.now.book.now tables.now.rows.now q.now columns.now text.now f) }
{
    match foreign_parts(key, value) {
        Some((names, parent, parent_names)) => {
            let child = Keyed {
                columns,
                names,
                text,
            };
            let behind = parent_text(tables.book, tables.rows, q, text, parent);
            keys_found_in(alloc, tables.named, &child, parent, parent_names, behind)
        }
        None => Ok(true),
    }
}

/// Whether each row of a text has a parent, for each foreign key among these entries of the table `q`. The error is that
/// memory ran out.
pub(crate) fn all_have_parents(
    alloc: Global,
    tables: &Tables<'_, '_>,
    q: &QName,
    columns: &TableColumns<'_>,
    entries: &[(&Key, &Value)],
    text: &[u8],
) -> Result<bool, AllocError>
    ensures { IfOk result (λ have. IsTrue have → AllByRecursion (HasParents tables.now.named.now tables.now.book.now tables.now.rows.now q.now columns.now text.now) (filter_map foreign_in (map (deref_pair {K = TheKey} {X = TheValue}) entries.now))) }
{
    for i in 0..entries.len() {
        let (key, value) = entries[i];
        if !entry_has_parents(alloc, tables, q, columns, key, value, text)? {
            return Ok(false);
        }
    }
    Ok(true)
}

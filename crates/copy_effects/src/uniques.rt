//! What keeps the rows of a table apart.
ghost use Rattle.std.specs.Prelude.{◌≡◌, ◌++◌, map, IfOk, OnOk};
ghost use Rattle.std.specs.FinMap.{entries, get};
ghost use Rattle.std.specs.List.{filter_map};
ghost use Rattle.std.specs.Map.Iter.{deref_pair};
ghost use Rattle.std.specs.Option.{option_map};
ghost use Rattle.cat_model.specs.declared.class.Class.TheVariants as class;
ghost use Rattle.cat_model.specs.declared.key.Key.{Key as TheKey};
ghost use Rattle.cat_model.specs.declared.key.Key.TheVariants as key;
ghost use Rattle.cat_model.specs.declared.object.QName.{QName};
ghost use Rattle.cat_model.specs.declared.value.Value.{Value as TheValue};
ghost use Rattle.cat_model.specs.CopyEffect.{unique_in, primary_columns, by_name};
ghost use Rattle.cat_model.specs.KeyEffects.{rows_in};
ghost use Rattle.cat_model.specs.Trees.{class_of, is_primary, is_unique, unique_on};
ghost use Rattle.rows_fit.specs.KeyCauses.{unique_cause};
ghost use Rattle.copy_effects.specs.Keys.{primary_in, uniques_of};

use cat_model::{Cause, Class, ConstraintKind, Index, Items, Key, QName, Value};
use copy_text::{Name, Row};
use eng_map::NamedMap;
use field_values::TableColumns;
use key_effects::{entries_of, rows_of};
use row_keys::JoinedRows;
use rows_fit::{UniqueKey, by_name, unique_cause};
use std::alloc::{AllocError, Global};
use std::marker::Model;
use stmt_refs::plain_columns;

// A primary key, a unique constraint or a unique index on plain columns. A contract sees its name and its columns.
#[derive(Drop)]
struct Unique<'m> {
    name: &'m Name,
    columns: Items<Name>,
}

impl<'m> Model for Unique<'m> {
    ghost use Rattle.cat_model.specs.CopyEffect.{Unique as TheUnique};

    ghost Value = { TheUnique };

    ghost view = { λ u. (u.name.now, u.columns) };
}

impl<'m> Unique<'m> {
    fn new(name: &'m Name, columns: Items<Name>) -> Unique<'m>
        ensures { result ≡ (name.now, columns) }
    {
        Unique { name, columns }
    }

    fn as_key(&self) -> UniqueKey<'_>
        ensures { result ≡ self.now }
    {
        UniqueKey::new(self.name, self.columns.as_slice())
    }
}

fn is_primary(kind: ConstraintKind) -> bool
    ensures { result ≡ is_primary kind }
{
    matches!(kind, ConstraintKind::Primary)
}

fn is_unique(kind: ConstraintKind) -> bool
    ensures { result ≡ is_unique kind }
{
    matches!(kind, ConstraintKind::Primary | ConstraintKind::Unique)
}

// The columns of a primary key.
fn primary_in(value: &Value) -> Option<&[Name]>
    ensures { option_map (λ names. names.now) result ≡ primary_in value.now }
{
    match value {
        Value::Constraint(c) => is_primary(c.kind).then_some(c.columns.as_slice()),
        _ => None,
    }
}

// The columns of the first primary key among these; none where there is none.
fn primary_columns<'m>(constraints: &[(&'m Key, &'m Value)]) -> &'m [Name]
    ensures { result.now ≡ primary_columns (map (deref_pair {K = TheKey} {X = TheValue}) constraints.now) }
{
    for i in 0..constraints.len() {
        let (_, value) = constraints[i];
        if let Some(names) = primary_in(value) {
            return names;
        }
    }
    &[]
}

/// The columns of a table's primary key; none where it has none. The only error is want of memory.
pub(crate) fn primary_of<'m>(named: &'m NamedMap, q: &QName) -> Result<&'m [Name], AllocError>
    ensures { IfOk result (λ names. names.now ≡ primary_columns (entries (class_of named.now (class.Constraints q.now)))) }
{
    let constraints = entries_of(named, Class::Constraints(q.clone()?))?;
    Ok(primary_columns(&constraints))
}

// The columns that an index keeps unique, where they are plain.
fn unique_on(alloc: Global, index: &Index) -> Result<Option<Items<Name>>, AllocError>
    ensures { IfOk result (λ names. names ≡ unique_on index.now) }
{
    if index.unique {
        plain_columns(alloc, index.text.as_bytes())
    } else {
        Ok(None)
    }
}

fn names_of(names: &Items<Name>) -> Result<Items<Name>, AllocError>
    ensures { IfOk result (λ copy. copy ≡ names.now) }
{
    Ok(names.clone()?)
}

// A constraint that keeps rows apart.
fn unique_constraint<'m>(name: &'m Name, value: &Value) -> Result<Option<Unique<'m>>, AllocError>
    ensures { IfOk result (λ unique. (table : QName) → unique ≡ unique_in (key.Con table name.now, value.now)) }
{
    match value {
        Value::Constraint(c) => {
            if is_unique(c.kind) {
                Ok(Some(Unique::new(name, names_of(&c.columns)?)))
            } else {
                Ok(None)
            }
        }
        _ => Ok(None),
    }
}

// An index that keeps rows apart.
fn unique_index<'m>(
    alloc: Global,
    name: &'m Name,
    value: &Value,
) -> Result<Option<Unique<'m>>, AllocError>
    ensures { IfOk result (λ unique. (table : QName) → unique ≡ unique_in (key.Index table name.now, value.now)) }
{
    match value {
        Value::Index(index) => match unique_on(alloc, index)? {
            Some(columns) => Ok(Some(Unique::new(name, columns))),
            None => Ok(None),
        },
        _ => Ok(None),
    }
}

fn unique_in<'m>(
    alloc: Global,
    key: &'m Key,
    value: &Value,
) -> Result<Option<Unique<'m>>, AllocError>
    ensures { IfOk result (λ unique. unique ≡ unique_in (key.now, value.now)) }
{
    match key {
        Key::Con(_, name) => unique_constraint(name, value),
        Key::Index(_, name) => unique_index(alloc, name, value),
        _ => Ok(None),
    }
}

// What keeps rows apart among these.
fn push_uniques<'m>(
    alloc: Global,
    uniques: &mut Vec<Unique<'m>>,
    entries: &[(&'m Key, &'m Value)],
) -> Result<(), AllocError>
    ensures { OnOk result (uniques.new.items ≡ uniques.old.items ++ filter_map unique_in (map (deref_pair {K = TheKey} {X = TheValue}) entries.now)) }
{
    for i in 0..entries.len() {
        let (key, value) = entries[i];
        if let Some(unique) = unique_in(alloc, key, value)? {
            uniques.push(unique)?;
        }
    }
    Ok(())
}

// The same as the keys that rows are tried against.
fn keys_of<'k>(alloc: Global, uniques: &'k [Unique<'k>]) -> Result<Vec<UniqueKey<'k>>, AllocError>
    ensures { IfOk result (λ keys. keys.items ≡ uniques.now) }
{
    let mut keys = Vec::with_capacity(alloc, uniques.len())?;
    for unique in uniques {
        keys.push(unique.as_key())?;
    }
    Ok(keys)
}

fn uniques_among<'m>(
    alloc: Global,
    constraints: &[(&'m Key, &'m Value)],
    indexes: &[(&'m Key, &'m Value)],
) -> Result<Vec<Unique<'m>>, AllocError>
    ensures { IfOk result (λ uniques. uniques.items ≡ filter_map unique_in (map (deref_pair {K = TheKey} {X = TheValue}) constraints.now ++ map (deref_pair {K = TheKey} {X = TheValue}) indexes.now)) }
{
    let mut uniques = Vec::new(alloc);
    push_uniques(alloc, &mut uniques, constraints)?;
    push_uniques(alloc, &mut uniques, indexes)?;
    Ok(uniques)
}

// Why rows can't stand together, if they can't: the first of these keys by name that two of them have in common. The
// rows are those of a table and new ones behind them.
fn cause_among<'k>(
    alloc: Global,
    columns: &TableColumns<'_>,
    uniques: &'k [Unique<'k>],
    old: &[Row],
    new: &[Row],
) -> Result<Option<Cause>, AllocError>
    ensures { IfOk result (λ because. because ≡ unique_cause (by_name uniques.now) columns.now (old.now ++ new.now)) }
{
    let unsorted = keys_of(alloc, uniques)?;
    let keys = by_name(alloc, unsorted)?;
    unique_cause(alloc, columns, &keys, &JoinedRows::new(old, new))
}

// What keeps the rows of a table apart.
fn uniques_of<'m>(
    alloc: Global,
    named: &'m NamedMap,
    q: &QName,
) -> Result<Vec<Unique<'m>>, AllocError>
    ensures { IfOk result (λ uniques. uniques.items ≡ filter_map unique_in (entries (class_of named.now (class.Constraints q.now)) ++ entries (class_of named.now (class.Indexes q.now)))) }
{
    let constraints = entries_of(named, Class::Constraints(q.clone()?))?;
    let indexes = entries_of(named, Class::Indexes(q.clone()?))?;
    uniques_among(alloc, &constraints, &indexes)
}

/// The first of what keeps the rows of a table apart, by name, that two of them have in common, where the new ones stand
/// behind the table's, as the cause for which they are refused. The only error is want of memory.
pub(crate) fn first_unique_cause(
    alloc: Global,
    named: &NamedMap,
    q: &QName,
    columns: &TableColumns<'_>,
    new: &Items<Row>,
) -> Result<Option<Cause>, AllocError>
    ensures { IfOk result (λ because. because ≡ unique_cause (uniques_of (entries (class_of named.now (class.Constraints q.now))) (entries (class_of named.now (class.Indexes q.now)))) columns.now (rows_in (get named.now (key.Rows q.now)) ++ new.now)) }
{
    let uniques = uniques_of(alloc, named, q)?;
    let old = rows_of(alloc, named, q)?;
    cause_among(alloc, columns, &uniques, &old, new.as_slice())
}

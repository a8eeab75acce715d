//! What keeps the rows of a table apart.
ghost use Rattle.std.specs.Prelude.{◌≡◌, ◌∷◌, [], true, None, Some, map, IfOk, IfSome, IsTrue};
ghost use Rattle.std.specs.List.{AllByRecursion, filter_map};
ghost use Rattle.std.specs.Map.Iter.{deref_pair};
ghost use Rattle.std.specs.Option.{option_map};
ghost use Rattle.cat_model.specs.declared.key.Key.{Key as TheKey};
ghost use Rattle.cat_model.specs.declared.key.Key.TheVariants as key;
ghost use Rattle.cat_model.specs.declared.object.QName.{QName as ThePath};
ghost use Rattle.cat_model.specs.declared.value.Value.{Value as TheValue};
ghost use Rattle.cat_model.specs.Values.{Bytes};
ghost use Rattle.cat_model.specs.CopyEffect.{Unique, unique_in};
ghost use Rattle.cat_model.specs.RowTexts.{rows_held};
ghost use Rattle.cat_model.specs.Tables.{repeated};
ghost use Rattle.cat_model.specs.Trees.{is_unique, unique_on};
ghost use Rattle.row_keys.specs.ByPlaces.{place_in};
ghost use Rattle.plain_rows.specs.Lines.{line_keys, none_again};
ghost use Rattle.plain_loads.specs.Meeting.{Differ};

use cat_model::{ConstraintKind, Index, Items, Key, Value};
use copy_text::Name;
use data_rows::read_rows;
use field_values::TableColumns;
use plain_rows::{keys_differ, keys_rise};
use row_keys::{JoinedRows, repeated};
use std::alloc::{AllocError, Global};
use stmt_refs::plain_columns;

/// The place of a key's column; `None` where it has another number of columns than one, or the table has none of the name.
pub(crate) fn one_place(columns: &TableColumns<'_>, names: &[Name]) -> Option<usize>
    ensures { IfSome result (λ place. map (place_in columns.now) names.now ≡ Some place ∷ []) }
{
    match names {
        [name] => columns.place(name.as_bytes()),
        _ => None,
    }
}

// Whether no two rows have one key on these columns.
fn names_differ(
    alloc: Global,
    columns: &TableColumns<'_>,
    rising: Option<usize>,
    names: &[Name],
    text: &[u8],
) -> Result<bool, AllocError>
    requires { IfSome rising (λ place. none_again [] (line_keys columns.now place text.now) ≡ true) }
    ensures { IfOk result (λ differ. IsTrue differ → repeated columns.now names.now (rows_held text.now) ≡ None) }
{
    match one_place(columns, names) {
        Some(place) => keys_apart(alloc, columns, rising, place, text),
        None => rows_differ(alloc, columns, names, text),
    }
}

// The same of a key on several columns: the rows are made.
fn rows_differ(
    alloc: Global,
    columns: &TableColumns<'_>,
    names: &[Name],
    text: &[u8],
) -> Result<bool, AllocError>
    ensures { IfOk result (λ differ. IsTrue differ → repeated columns.now names.now (rows_held text.now) ≡ None) }
{
    let rows = read_rows(alloc, text)?;
    let all = JoinedRows::new(&[], &rows);
    match repeated(alloc, columns, names, &all)? {
        Some(_) => Ok(false),
        None => Ok(true),
    }
}

pub(crate) fn is_place(found: Option<usize>, place: usize) -> bool
    ensures { IsTrue result → found ≡ Some place }
{
    found == Some(place)
}

// Whether no two lines have one key in the column at a place: mostly since the keys rise, as they may be known to.
fn keys_apart(
    alloc: Global,
    columns: &TableColumns<'_>,
    rising: Option<usize>,
    place: usize,
    text: &[u8],
) -> Result<bool, AllocError>
    requires { IfSome rising (λ place. none_again [] (line_keys columns.now place text.now) ≡ true) }
    ensures { IfOk result (λ apart. IsTrue apart → none_again [] (line_keys columns.now place text.now) ≡ true) }
{
    if is_place(rising, place) {
        return Ok(true);
    }
    if keys_rise(alloc, columns, place, text)? {
        return Ok(true);
    }
    keys_differ(alloc, columns, place, text)
}

fn is_unique(kind: ConstraintKind) -> bool
    ensures { result ≡ is_unique kind }
{
    matches!(kind, ConstraintKind::Primary | ConstraintKind::Unique)
}

fn names_of(names: &Items<Name>) -> Result<Items<Name>, AllocError>
    ensures { IfOk result (λ copy. copy ≡ names.now) }
{
    Ok(names.clone()?)
}

// The columns of a constraint that keeps rows apart.
fn constraint_columns(value: &Value) -> Result<Option<Items<Name>>, AllocError>
    ensures { IfOk result (λ names. (table : ThePath) (name : Bytes) → names ≡ option_map (λ u. u.1) (unique_in (key.Con table name, value.now))) }
{
    match value {
        Value::Constraint(c) => {
            if is_unique(c.kind) {
                Ok(Some(names_of(&c.columns)?))
            } else {
                Ok(None)
            }
        }
        _ => Ok(None),
    }
}

// The columns that an index keeps unique, where they are plain.
fn unique_on(alloc: Global, index: &Index) -> Result<Option<Items<Name>>, AllocError>
    ensures { IfOk result (λ names. names ≡ unique_on index.now) }
{
    if index.unique {
        plain_columns(alloc, index.text.as_bytes())
    } else {
        Ok(None)
    }
}

fn index_columns(alloc: Global, value: &Value) -> Result<Option<Items<Name>>, AllocError>
    ensures { IfOk result (λ names. (table : ThePath) (name : Bytes) → names ≡ option_map (λ u. u.1) (unique_in (key.Index table name, value.now))) }
{
    match value {
        Value::Index(index) => unique_on(alloc, index),
        _ => Ok(None),
    }
}

// The columns of what keeps rows apart.
pub(crate) fn unique_columns(
    alloc: Global,
    key: &Key,
    value: &Value,
) -> Result<Option<Items<Name>>, AllocError>
    ensures { IfOk result (λ names. names ≡ option_map (λ u. u.1) (unique_in (key.now, value.now))) }
{
    match key {
        Key::Con(_, _) => constraint_columns(value),
        Key::Index(_, _) => index_columns(alloc, value),
        _ => Ok(None),
    }
}

// Whether no two rows have one key, where the entry is what keeps rows apart.
fn entry_differs(
    alloc: Global,
    columns: &TableColumns<'_>,
    rising: Option<usize>,
    key: &Key,
    value: &Value,
    text: &[u8],
) -> Result<bool, AllocError>
    requires { IfSome rising (λ place. none_again [] (line_keys columns.now place text.now) ≡ true) }
    ensures { IfOk result (λ differ. IsTrue differ → (u : Unique) → unique_in (key.now, value.now) ≡ Some u → Differ columns.now text.now u) }
{
    match unique_columns(alloc, key, value)? {
        Some(names) => names_differ(alloc, columns, rising, names.as_slice(), text),
        None => Ok(true),
    }
}

/// Whether no two rows of a text have one key, for each of these entries that keeps rows apart. In the column at the place
/// `rising`, if there is one, no two lines have one key. The error is that memory ran out.
pub(crate) fn all_differ(
    alloc: Global,
    columns: &TableColumns<'_>,
    rising: Option<usize>,
    entries: &[(&Key, &Value)],
    text: &[u8],
) -> Result<bool, AllocError>
    requires { IfSome rising (λ place. none_again [] (line_keys columns.now place text.now) ≡ true) }
    ensures { IfOk result (λ differ. IsTrue differ → AllByRecursion (Differ columns.now text.now) (filter_map unique_in (map (deref_pair {K = TheKey} {X = TheValue}) entries.now))) }
{
    for i in 0..entries.len() {
        let (key, value) = entries[i];
        if !entry_differs(alloc, columns, rising, key, value, text)? {
            return Ok(false);
        }
    }
    Ok(true)
}

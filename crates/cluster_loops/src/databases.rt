//! The rows of databases.
ghost use Rattle.std.specs.Prelude.{◌≡◌, map, IfOk, codes, string_bytes};
ghost use Rattle.std.specs.List.{filter_map};
ghost use Rattle.std.specs.Map.Iter.{deref_pair};
ghost use Rattle.cat_model.specs.declared.constraint.Encoding.TheVariants.{Utf8 as UTF8};
ghost use Rattle.cat_model.specs.declared.key.Key.{Key as TheKey};
ghost use Rattle.cat_model.specs.declared.key.Key.TheVariants as key;
ghost use Rattle.cat_model.specs.declared.value.Value.{Value as TheValue};
ghost use Rattle.cat_model.specs.declared.value.Value.TheVariants as value;
ghost use Rattle.cat_model.specs.Lexemes.{same_text};
ghost use Rattle.named_tables.specs.Cluster.{database_row};
ghost use Rattle.entry_ids.specs.Ids.{of_keys};
ghost use Rattle.map_export.specs.Making.{IsRowOf, AreSaid};
ghost use Rattle.map_export.specs.Things.{database_in};

use crate::adding::push_some;
use crate::lookups::owner_of;
use crate::oids::{database_oid, role_oid};
use cat_model::{Encoding, Key, Object, Value};
use cat_rows::{DatabaseRow, Rows};
use cluster_rows::database_row;
use copy_text::{Name, Text};
use eng_map::NamedMap;
use object_ids::Ids;
use std::alloc::{AllocError, Global};

// The text of a string.
fn text_of(string: String) -> Text
    ensures { result ≡ string_bytes string }
{
    match Text::new(string.into_bytes()) {
        Some(text) => text,
        None => unreachable!(),
    }
}

// The name of the encoding.
fn utf8(alloc: Global) -> Result<Text, AllocError>
    ensures { IfOk result (λ text. text ≡ codes "UTF8") }
{
    let mut name = String::new(alloc);
    name.push_str("UTF8")?;
    Ok(text_of(name))
}

// Whether the two names are the same.
fn is_same(a: &Name, b: &Name) -> bool
    ensures { result ≡ same_text a.now b.now }
{
    a == b
}

// The row of a database that has this owner.
fn owned_row(
    alloc: Global,
    ids: &Ids,
    current: &Name,
    name: &Name,
    owner: &Name,
) -> Result<DatabaseRow, AllocError>
    ensures { IfOk result (λ row. row ≡ database_row (of_keys ids.now) current.now (record { name = name.now; owner = owner.now })) }
{
    let encoding = utf8(alloc)?;
    let own = database_oid(ids, name)?;
    let by = role_oid(ids, owner)?;
    let same = is_same(name, current);
    Ok(database_row(own, name, by, encoding, same)?)
}

// The row of a name, where a database with an owner stands under it.
fn named_database(
    alloc: Global,
    ids: &Ids,
    named: &NamedMap,
    current: &Name,
    name: &Name,
) -> Result<Option<DatabaseRow>, AllocError>
    ensures { IfOk result (λ row. IsRowOf (λ d row. row ≡ database_row (of_keys ids.now) current.now d) (database_in named.now (key.Database name.now, value.Database UTF8)) row) }
{
    match owner_of(named, Object::Database(name.clone()?)) {
        Some(owner) => Ok(Some(owned_row(alloc, ids, current, name, owner)?)),
        None => Ok(None),
    }
}

// The row of an entry, where it is of a database.
fn entry_row(
    alloc: Global,
    ids: &Ids,
    named: &NamedMap,
    current: &Name,
    key: &Key,
    value: &Value,
) -> Result<Option<DatabaseRow>, AllocError>
    ensures { IfOk result (λ row. IsRowOf (λ d row. row ≡ database_row (of_keys ids.now) current.now d) (database_in named.now (key.now, value.now)) row) }
{
    match (key, value) {
        (Key::Database(name), Value::Database(Encoding::Utf8)) => {
            named_database(alloc, ids, named, current, name)
        }
        _ => Ok(None),
    }
}

/// The rows of pg_database, one of each database among the entries that has an owner, in their order. The only error is want
/// of memory. See <https://www.postgresql.org/docs/16/catalog-pg-database.html>.
pub fn database_rows(
    alloc: Global,
    ids: &Ids,
    named: &NamedMap,
    current: &Name,
    entries: &[(&Key, &Value)],
) -> Result<Rows<DatabaseRow>, AllocError>
    ensures { IfOk result (λ rows. AreSaid (λ d row. row ≡ database_row (of_keys ids.now) current.now d) (filter_map (database_in named.now) (map (deref_pair {K = TheKey} {X = TheValue}) entries.now)) rows) }
{
    let mut rows = Rows::new(alloc);
    for i in 0..entries.len() {
        let (key, value) = entries[i];
        push_some(
            &mut rows,
            entry_row(alloc, ids, named, current, key, value)?,
        )?;
    }
    Ok(rows)
}

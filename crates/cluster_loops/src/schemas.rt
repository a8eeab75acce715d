//! The rows of schemas.
ghost use Rattle.std.specs.Prelude.{◌≡◌, Some, map, IfOk};
ghost use Rattle.std.specs.List.{filter_map};
ghost use Rattle.std.specs.Map.Iter.{deref_pair};
ghost use Rattle.cat_model.specs.declared.key.Key.{Key as TheKey};
ghost use Rattle.cat_model.specs.declared.key.Key.TheVariants as key;
ghost use Rattle.cat_model.specs.declared.object.Object.TheVariants as object;
ghost use Rattle.cat_model.specs.declared.value.Value.{Value as TheValue};
ghost use Rattle.cat_model.specs.declared.value.Value.TheVariants as value;
ghost use Rattle.named_tables.specs.Cluster.{IsSchemaRow};
ghost use Rattle.entry_ids.specs.Ids.{of_keys};
ghost use Rattle.map_export.specs.Making.{IsRowOf, AreSaid};
ghost use Rattle.map_export.specs.Things.{owner_of, schema_in};

use crate::adding::push_some;
use crate::lookups::{grants_on, owner_of};
use crate::oids::{role_oid, schema_oid};
use cat_model::{Grants, Key, Object, Value};
use cat_names::GrantKind;
use cat_rows::{NamespaceRow, Rows};
use cluster_rows::{acl_of, schema_row};
use copy_text::Name;
use eng_map::NamedMap;
use object_ids::Ids;
use std::alloc::{AllocError, Global};

// The row of a schema that has this owner and these grants.
fn owned_row(
    alloc: Global,
    ids: &Ids,
    name: &Name,
    owner: &Name,
    grants: &Grants,
) -> Result<NamespaceRow, AllocError>
    ensures { IfOk result (λ row. IsSchemaRow (of_keys ids.now) (record { name = name.now; owner = owner.now; grants = grants.now }) row) }
{
    let rights = acl_of(alloc, GrantKind::Schema, owner, grants)?;
    let own = schema_oid(ids, name)?;
    let by = role_oid(ids, owner)?;
    Ok(schema_row(own, name, by, rights)?)
}

// The row of a name that has this owner, where grants stand under it.
fn granted_schema(
    alloc: Global,
    ids: &Ids,
    named: &NamedMap,
    name: &Name,
    owner: &Name,
) -> Result<Option<NamespaceRow>, AllocError>
    ensures { IfOk result (λ row. Some owner.now ≡ owner_of named.now (object.Schema name.now) → IsRowOf (IsSchemaRow (of_keys ids.now)) (schema_in named.now (key.Schema name.now, value.Schema)) row) }
{
    match grants_on(named, Object::Schema(name.clone()?)) {
        Some(grants) => Ok(Some(owned_row(alloc, ids, name, owner, grants)?)),
        None => Ok(None),
    }
}

// The row of a name, where a schema with an owner and grants stands under it.
fn named_schema(
    alloc: Global,
    ids: &Ids,
    named: &NamedMap,
    name: &Name,
) -> Result<Option<NamespaceRow>, AllocError>
    ensures { IfOk result (λ row. IsRowOf (IsSchemaRow (of_keys ids.now)) (schema_in named.now (key.Schema name.now, value.Schema)) row) }
{
    match owner_of(named, Object::Schema(name.clone()?)) {
        Some(owner) => Ok(granted_schema(alloc, ids, named, name, owner)?),
        None => Ok(None),
    }
}

// The row of an entry, where it is of a schema.
fn entry_row(
    alloc: Global,
    ids: &Ids,
    named: &NamedMap,
    key: &Key,
    value: &Value,
) -> Result<Option<NamespaceRow>, AllocError>
    ensures { IfOk result (λ row. IsRowOf (IsSchemaRow (of_keys ids.now)) (schema_in named.now (key.now, value.now)) row) }
{
    match (key, value) {
        (Key::Schema(name), Value::Schema) => named_schema(alloc, ids, named, name),
        _ => Ok(None),
    }
}

/// The rows of pg_namespace, one of each schema among the entries that has an owner and grants, in their order. The only
/// error is want of memory. See <https://www.postgresql.org/docs/16/catalog-pg-namespace.html>.
pub fn schema_rows(
    alloc: Global,
    ids: &Ids,
    named: &NamedMap,
    entries: &[(&Key, &Value)],
) -> Result<Rows<NamespaceRow>, AllocError>
    ensures { IfOk result (λ rows. AreSaid (IsSchemaRow (of_keys ids.now)) (filter_map (schema_in named.now) (map (deref_pair {K = TheKey} {X = TheValue}) entries.now)) rows) }
{
    let mut rows = Rows::new(alloc);
    for i in 0..entries.len() {
        let (key, value) = entries[i];
        push_some(&mut rows, entry_row(alloc, ids, named, key, value)?)?;
    }
    Ok(rows)
}

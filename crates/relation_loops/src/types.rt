//! The rows of enums and domains.
ghost use Rattle.std.specs.Prelude.{◌≡◌, Some, List, map, IfOk};
ghost use Rattle.std.specs.List.{AllByRecursion, filter_map};
ghost use Rattle.std.specs.Map.Iter.{deref_pair};
ghost use Rattle.cat_model.specs.declared.key.Key.{Key as TheKey};
ghost use Rattle.cat_model.specs.declared.key.Key.TheVariants as key;
ghost use Rattle.cat_model.specs.declared.object.Object.TheVariants as object;
ghost use Rattle.cat_model.specs.declared.value.Value.{Value as TheValue};
ghost use Rattle.cat_model.specs.declared.value.Value.TheVariants as value;
ghost use Rattle.cat_model.specs.Values.{Bytes};
ghost use Rattle.cat_names.specs.declared.rights.GrantKind.TheVariants as on;
ghost use Rattle.cat_sound.specs.Itself.{IsDomain, IsType, Itself};
ghost use Rattle.cluster_loops.specs.Ids.{of_keys};
ghost use Rattle.map_export.specs.Making.{IsRowOf, AreSaid};
ghost use Rattle.map_export.specs.Things.{owner_of};
ghost use Rattle.object_rows.specs.Types.{IsTypeRow};
ghost use Rattle.object_rows.specs.Heads.{IsHead};
ghost use Rattle.relation_loops.specs.Wholes.{type_with, owned_type, type_at, type_in};
ghost use Rattle.sound_texts.specs.Grammar.{grammar};

use crate::heads::head_of;
use cat_model::{Domain, Grants, Key, Object, QName, Value};
use cat_names::GrantKind;
use cat_rows::{Rows, TypeRow};
use cluster_loops::{grants_on, named_type_oid, owner_of, push_some, type_oid};
use copy_text::Name;
use eng_map::NamedMap;
use object_ids::Ids;
use object_rows::{Head, domain_row, enum_row};
use std::alloc::{AllocError, Global};

// What the row of a type has besides its name and what it is.
fn head_at(
    alloc: Global,
    ids: &Ids,
    path: &QName,
    owner: &Name,
    grants: &Grants,
) -> Result<Head, AllocError>
    ensures { IfOk result (IsHead (of_keys ids.now) on.Type (key.UserType path.now) path.now.schema owner.now grants.now) }
{
    let own = type_oid(ids, path)?;
    Ok(head_of(
        alloc,
        ids,
        GrantKind::Type,
        own,
        &path.schema,
        owner,
        grants,
    )?)
}

// The row of an enum that has this owner and these grants.
fn enum_at(
    alloc: Global,
    ids: &Ids,
    path: &QName,
    owner: &Name,
    grants: &Grants,
) -> Result<TypeRow, AllocError>
    ensures { IfOk result (λ row. (labels : List Bytes) → IsTypeRow (of_keys ids.now) (type_with path.now (value.Enum labels) owner.now grants.now) row) }
{
    let head = head_at(alloc, ids, path, owner, grants)?;
    Ok(enum_row(alloc, path, head)?)
}

// The row of a domain that has this owner and these grants.
fn domain_at(
    alloc: Global,
    ids: &Ids,
    path: &QName,
    domain: &Domain,
    owner: &Name,
    grants: &Grants,
) -> Result<TypeRow, AllocError>
    ensures { IfOk result (λ row. IsDomain grammar path.now domain.now → IsTypeRow (of_keys ids.now) (type_with path.now (value.Domain domain.now) owner.now grants.now) row) }
{
    let base = named_type_oid(ids, &domain.base)?;
    let head = head_at(alloc, ids, path, owner, grants)?;
    Ok(domain_row(alloc, path, head, domain, base)?)
}

// The row of a type that has this owner and these grants.
fn owned_row(
    alloc: Global,
    ids: &Ids,
    path: &QName,
    value: &Value,
    owner: &Name,
    grants: &Grants,
) -> Result<Option<TypeRow>, AllocError>
    ensures { IfOk result (λ row. IsType grammar path.now value.now → IsRowOf (IsTypeRow (of_keys ids.now)) (owned_type path.now value.now owner.now grants.now) row) }
{
    match value {
        Value::Enum(_) => Ok(Some(enum_at(alloc, ids, path, owner, grants)?)),
        Value::Domain(domain) => { Ok(Some(domain_at(alloc, ids, path, domain, owner, grants)?)) }
        _ => Ok(None),
    }
}

// The row of a path that has this owner, where grants stand under it.
fn granted_type(
    alloc: Global,
    ids: &Ids,
    named: &NamedMap,
    path: &QName,
    value: &Value,
    owner: &Name,
) -> Result<Option<TypeRow>, AllocError>
    ensures { IfOk result (λ row. Some owner.now ≡ owner_of named.now (object.Type path.now) → IsType grammar path.now value.now → IsRowOf (IsTypeRow (of_keys ids.now)) (type_at named.now path.now value.now) row) }
{
    match grants_on(named, Object::Type(path.clone()?)) {
        Some(grants) => Ok(owned_row(alloc, ids, path, value, owner, grants)?),
        None => Ok(None),
    }
}

// The row of a path, where a type with an owner and grants stands under it.
fn named_type(
    alloc: Global,
    ids: &Ids,
    named: &NamedMap,
    path: &QName,
    value: &Value,
) -> Result<Option<TypeRow>, AllocError>
    ensures { IfOk result (λ row. IsType grammar path.now value.now → IsRowOf (IsTypeRow (of_keys ids.now)) (type_at named.now path.now value.now) row) }
{
    match owner_of(named, Object::Type(path.clone()?)) {
        Some(owner) => Ok(granted_type(alloc, ids, named, path, value, owner)?),
        None => Ok(None),
    }
}

// The row of an entry, where it is of a type.
fn entry_row(
    alloc: Global,
    ids: &Ids,
    named: &NamedMap,
    key: &Key,
    value: &Value,
) -> Result<Option<TypeRow>, AllocError>
    ensures { IfOk result (λ row. Itself grammar key.now value.now → IsRowOf (IsTypeRow (of_keys ids.now)) (type_in named.now (key.now, value.now)) row) }
{
    match key {
        Key::UserType(path) => named_type(alloc, ids, named, path, value),
        _ => Ok(None),
    }
}

/// The rows of pg_type, one of each enum and domain among the entries that has an owner and grants, in their order. The only
/// error is want of memory. See <https://www.postgresql.org/docs/16/catalog-pg-type.html>.
pub fn type_rows(
    alloc: Global,
    ids: &Ids,
    named: &NamedMap,
    entries: &[(&Key, &Value)],
) -> Result<Rows<TypeRow>, AllocError>
    ensures { IfOk result (λ rows. AllByRecursion (λ e. Itself grammar e.0 e.1) (map (deref_pair {K = TheKey} {X = TheValue}) entries.now) → AreSaid (IsTypeRow (of_keys ids.now)) (filter_map (type_in named.now) (map (deref_pair {K = TheKey} {X = TheValue}) entries.now)) rows) }
{
    let mut rows = Rows::new(alloc);
    for i in 0..entries.len() {
        let (key, value) = entries[i];
        push_some(&mut rows, entry_row(alloc, ids, named, key, value)?)?;
    }
    Ok(rows)
}

//! The rows of tables, views, sequences and indexes.
ghost use Rattle.std.specs.Prelude.{◌≡◌, Some, List, map, IfOk};
ghost use Rattle.std.specs.FinMap.{get};
ghost use Rattle.std.specs.List.{filter_map};
ghost use Rattle.std.specs.Map.Iter.{deref_pair};
ghost use Rattle.cat_model.specs.declared.key.Key.{Key as TheKey};
ghost use Rattle.cat_model.specs.declared.key.Key.TheVariants as key;
ghost use Rattle.cat_model.specs.declared.object.Object.TheVariants as object;
ghost use Rattle.cat_model.specs.declared.object.QName.{QName as ThePath};
ghost use Rattle.cat_model.specs.declared.value.Value.{Value as TheValue};
ghost use Rattle.cat_model.specs.declared.value.Column.{Column as TheColumn};
ghost use Rattle.cat_model.specs.declared.value.Sequence.{Sequence as TheSequence};
ghost use Rattle.cat_model.specs.declared.value.Value.TheVariants as value;
ghost use Rattle.cat_model.specs.declared.value.Value.TheVariants.{Owner as OWNER, Grants as GRANTS};
ghost use Rattle.cat_model.specs.Values.{Named};
ghost use Rattle.cluster_loops.specs.Ids.{of_keys};
ghost use Rattle.map_export.specs.Making.{IsRowOf, AreSaid};
ghost use Rattle.map_export.specs.Things.{owner_of};
ghost use Rattle.object_rows.specs.Relations.{IsRelationRow};
ghost use Rattle.object_rows.specs.Heads.{IsHead};
ghost use Rattle.relation_loops.specs.Wholes.{owned_relation, relation_of, whole_relation, index_relation, relation_at, relation_in};

use crate::heads::head_of;
use cat_model::{Grants, Key, Object, QName, Value};
use cat_names::GrantKind;
use cat_rows::{ClassRow, Rows};
use cluster_loops::{grants_on, owner_of, push_some, relation_oid, role_oid, schema_oid};
use copy_text::Name;
use eng_map::NamedMap;
use object_ids::Ids;
use object_rows::{Head, index_class, sequence_class, table_class, view_class};
use std::alloc::{AllocError, Global};

// What the row of a relation has besides its name and what it is.
fn head_at(
    alloc: Global,
    ids: &Ids,
    kind: GrantKind,
    path: &QName,
    owner: &Name,
    grants: &Grants,
) -> Result<Head, AllocError>
    ensures { IfOk result (IsHead (of_keys ids.now) kind (key.Rel path.now) path.now.schema owner.now grants.now) }
{
    let own = relation_oid(ids, path)?;
    Ok(head_of(alloc, ids, kind, own, &path.schema, owner, grants)?)
}

// The row of a table that has this owner and these grants.
fn table_at(
    alloc: Global,
    ids: &Ids,
    path: &QName,
    owner: &Name,
    grants: &Grants,
) -> Result<ClassRow, AllocError>
    ensures { IfOk result (λ row. (named : Named) (columns : List TheColumn) → get named (key.Owner (object.Relation path.now)) ≡ Some (value.Owner owner.now) → get named (key.Acl (object.Relation path.now)) ≡ Some (value.Grants grants.now) → IsRelationRow named (of_keys ids.now) (relation_of path.now (value.Table columns)) row) }
{
    let head = head_at(alloc, ids, GrantKind::Table, path, owner, grants)?;
    Ok(table_class(path, head)?)
}

// The row of a view that has this owner and these grants.
fn view_at(
    alloc: Global,
    ids: &Ids,
    path: &QName,
    owner: &Name,
    grants: &Grants,
) -> Result<ClassRow, AllocError>
    ensures { IfOk result (λ row. (named : Named) → get named (key.Owner (object.Relation path.now)) ≡ Some (value.Owner owner.now) → get named (key.Acl (object.Relation path.now)) ≡ Some (value.Grants grants.now) → IsRelationRow named (of_keys ids.now) (relation_of path.now value.View) row) }
{
    let head = head_at(alloc, ids, GrantKind::Table, path, owner, grants)?;
    Ok(view_class(path, head)?)
}

// The row of a sequence that has this owner and these grants.
fn sequence_at(
    alloc: Global,
    ids: &Ids,
    path: &QName,
    owner: &Name,
    grants: &Grants,
) -> Result<ClassRow, AllocError>
    ensures { IfOk result (λ row. (named : Named) (s : TheSequence) → get named (key.Owner (object.Relation path.now)) ≡ Some (value.Owner owner.now) → get named (key.Acl (object.Relation path.now)) ≡ Some (value.Grants grants.now) → IsRelationRow named (of_keys ids.now) (relation_of path.now (value.Sequence s)) row) }
{
    let head = head_at(alloc, ids, GrantKind::Sequence, path, owner, grants)?;
    Ok(sequence_class(path, head)?)
}

// The row of a relation that has this owner and these grants of its own.
fn owned_row(
    alloc: Global,
    ids: &Ids,
    path: &QName,
    value: &Value,
    owner: &Name,
    grants: &Grants,
) -> Result<Option<ClassRow>, AllocError>
    ensures { IfOk result (λ row. (named : Named) → get named (key.Owner (object.Relation path.now)) ≡ Some (OWNER owner.now) → get named (key.Acl (object.Relation path.now)) ≡ Some (GRANTS grants.now) → IsRowOf (IsRelationRow named (of_keys ids.now)) (owned_relation path.now value.now) row) }
{
    match value {
        Value::Table(_) => Ok(Some(table_at(alloc, ids, path, owner, grants)?)),
        Value::View => Ok(Some(view_at(alloc, ids, path, owner, grants)?)),
        Value::Sequence(_) => Ok(Some(sequence_at(alloc, ids, path, owner, grants)?)),
        _ => Ok(None),
    }
}

// The row of a path that has this owner, where grants stand under it.
fn granted_relation(
    alloc: Global,
    ids: &Ids,
    named: &NamedMap,
    path: &QName,
    value: &Value,
    owner: &Name,
) -> Result<Option<ClassRow>, AllocError>
    ensures { IfOk result (λ row. Some owner.now ≡ owner_of named.now (object.Relation path.now) → IsRowOf (IsRelationRow named.now (of_keys ids.now)) (whole_relation named.now path.now value.now) row) }
{
    match grants_on(named, Object::Relation(path.clone()?)) {
        Some(grants) => Ok(owned_row(alloc, ids, path, value, owner, grants)?),
        None => Ok(None),
    }
}

// The row of a path, where a relation with an owner and grants stands under it.
fn named_owned(
    alloc: Global,
    ids: &Ids,
    named: &NamedMap,
    path: &QName,
    value: &Value,
) -> Result<Option<ClassRow>, AllocError>
    ensures { IfOk result (λ row. IsRowOf (IsRelationRow named.now (of_keys ids.now)) (whole_relation named.now path.now value.now) row) }
{
    match owner_of(named, Object::Relation(path.clone()?)) {
        Some(owner) => Ok(granted_relation(alloc, ids, named, path, value, owner)?),
        None => Ok(None),
    }
}

// The row of an index of a table that has this owner.
fn index_row(ids: &Ids, path: &QName, owner: &Name) -> Result<ClassRow, AllocError>
    ensures { IfOk result (λ row. (named : Named) (table : ThePath) → get named (key.Owner (object.Relation table)) ≡ Some (value.Owner owner.now) → IsRelationRow named (of_keys ids.now) (relation_of path.now (value.IndexOf table)) row) }
{
    let own = relation_oid(ids, path)?;
    let within = schema_oid(ids, &path.schema)?;
    let by = role_oid(ids, owner)?;
    Ok(index_class(path, own, within, by)?)
}

// The row of an index, where its table has an owner.
fn named_index(
    ids: &Ids,
    named: &NamedMap,
    path: &QName,
    table: &QName,
) -> Result<Option<ClassRow>, AllocError>
    ensures { IfOk result (λ row. IsRowOf (IsRelationRow named.now (of_keys ids.now)) (index_relation named.now path.now table.now) row) }
{
    match owner_of(named, Object::Relation(table.clone()?)) {
        Some(owner) => Ok(Some(index_row(ids, path, owner)?)),
        None => Ok(None),
    }
}

// The row of a path, where a relation stands under it.
fn named_relation(
    alloc: Global,
    ids: &Ids,
    named: &NamedMap,
    path: &QName,
    value: &Value,
) -> Result<Option<ClassRow>, AllocError>
    ensures { IfOk result (λ row. IsRowOf (IsRelationRow named.now (of_keys ids.now)) (relation_at named.now path.now value.now) row) }
{
    match value {
        Value::IndexOf(table) => named_index(ids, named, path, table),
        Value::Table(_) => named_owned(alloc, ids, named, path, value),
        Value::View => named_owned(alloc, ids, named, path, value),
        Value::Sequence(_) => named_owned(alloc, ids, named, path, value),
        _ => Ok(None),
    }
}

// The row of an entry, where it is of a relation.
fn entry_row(
    alloc: Global,
    ids: &Ids,
    named: &NamedMap,
    key: &Key,
    value: &Value,
) -> Result<Option<ClassRow>, AllocError>
    ensures { IfOk result (λ row. IsRowOf (IsRelationRow named.now (of_keys ids.now)) (relation_in named.now (key.now, value.now)) row) }
{
    match key {
        Key::Rel(path) => named_relation(alloc, ids, named, path, value),
        _ => Ok(None),
    }
}

/// The rows of pg_class, one of each relation among the entries that has an owner and grants, or whose table has an owner, in
/// their order. The only error is want of memory. See <https://www.postgresql.org/docs/16/catalog-pg-class.html>.
pub fn relation_rows(
    alloc: Global,
    ids: &Ids,
    named: &NamedMap,
    entries: &[(&Key, &Value)],
) -> Result<Rows<ClassRow>, AllocError>
    ensures { IfOk result (λ rows. AreSaid (IsRelationRow named.now (of_keys ids.now)) (filter_map (relation_in named.now) (map (deref_pair {K = TheKey} {X = TheValue}) entries.now)) rows) }
{
    let mut rows = Rows::new(alloc);
    for i in 0..entries.len() {
        let (key, value) = entries[i];
        push_some(&mut rows, entry_row(alloc, ids, named, key, value)?)?;
    }
    Ok(rows)
}

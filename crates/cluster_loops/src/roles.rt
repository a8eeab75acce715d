//! The rows of roles.
ghost use Rattle.std.specs.Prelude.{◌≡◌, map, IfOk};
ghost use Rattle.std.specs.List.{filter_map};
ghost use Rattle.std.specs.Map.Iter.{deref_pair};
ghost use Rattle.cat_model.specs.declared.key.Key.{Key as TheKey};
ghost use Rattle.cat_model.specs.declared.key.Key.TheVariants as key;
ghost use Rattle.cat_model.specs.declared.value.Value.{Value as TheValue};
ghost use Rattle.named_tables.specs.Cluster.{role_row};
ghost use Rattle.entry_ids.specs.Ids.{of_keys};
ghost use Rattle.map_export.specs.Making.{IsRowOf, AreSaid};
ghost use Rattle.map_export.specs.Things.{role_in};

use crate::adding::push_some;
use crate::oids::role_oid;
use cat_model::{Key, Role, Value};
use cat_rows::{AuthidRow, Rows};
use cluster_rows::role_row;
use copy_text::Name;
use object_ids::Ids;
use std::alloc::{AllocError, Global};

// The row of a role.
fn row_of(ids: &Ids, name: &Name, role: &Role) -> Result<AuthidRow, AllocError>
    ensures { IfOk result (λ row. row ≡ role_row (of_keys ids.now) (record { name = name.now; role = role.now })) }
{
    let own = role_oid(ids, name)?;
    Ok(role_row(own, name, role)?)
}

// The row of a name, where a role stands under it.
fn named_role(ids: &Ids, name: &Name, value: &Value) -> Result<Option<AuthidRow>, AllocError>
    ensures { IfOk result (λ row. IsRowOf (λ r row. row ≡ role_row (of_keys ids.now) r) (role_in (key.Role name.now, value.now)) row) }
{
    match value {
        Value::Role(role) => Ok(Some(row_of(ids, name, role)?)),
        _ => Ok(None),
    }
}

// The row of an entry, where it is of a role.
fn entry_row(ids: &Ids, key: &Key, value: &Value) -> Result<Option<AuthidRow>, AllocError>
    ensures { IfOk result (λ row. IsRowOf (λ r row. row ≡ role_row (of_keys ids.now) r) (role_in (key.now, value.now)) row) }
{
    match key {
        Key::Role(name) => named_role(ids, name, value),
        _ => Ok(None),
    }
}

/// The rows of pg_authid, one of each role among the entries, in their order. The only error is want of memory. See
/// <https://www.postgresql.org/docs/16/catalog-pg-authid.html>.
pub fn role_rows(
    alloc: Global,
    ids: &Ids,
    entries: &[(&Key, &Value)],
) -> Result<Rows<AuthidRow>, AllocError>
    ensures { IfOk result (λ rows. AreSaid (λ r row. row ≡ role_row (of_keys ids.now) r) (filter_map role_in (map (deref_pair {K = TheKey} {X = TheValue}) entries.now)) rows) }
{
    let mut rows = Rows::new(alloc);
    for i in 0..entries.len() {
        let (key, value) = entries[i];
        push_some(&mut rows, entry_row(ids, key, value)?)?;
    }
    Ok(rows)
}

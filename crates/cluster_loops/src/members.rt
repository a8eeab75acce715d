//! The rows of memberships.
ghost use Rattle.std.specs.Prelude.{◌≡◌, map, IfOk};
ghost use Rattle.std.specs.List.{filter_map};
ghost use Rattle.std.specs.Map.Iter.{deref_pair};
ghost use Rattle.cat_model.specs.declared.key.Key.{Key as TheKey};
ghost use Rattle.cat_model.specs.declared.key.Key.TheVariants as key;
ghost use Rattle.cat_model.specs.declared.value.Value.{Value as TheValue};
ghost use Rattle.named_tables.specs.Cluster.{member_row};
ghost use Rattle.entry_ids.specs.Ids.{of_keys};
ghost use Rattle.map_export.specs.Making.{IsRowOf, AreSaid};
ghost use Rattle.map_export.specs.Things.{member_in};

use crate::adding::push_some;
use crate::oids::{oid, role_oid};
use cat_model::{Key, Membership, Value};
use cat_rows::{AuthMembersRow, Rows};
use cluster_rows::member_row;
use copy_text::Name;
use object_ids::Ids;
use std::alloc::{AllocError, Global};

// The oid of a membership.
fn member_oid(ids: &Ids, role: &Name, member: &Name, grantor: &Name) -> Result<u32, AllocError>
    ensures { IfOk result (λ oid. oid ≡ of_keys ids.now (key.Member role.now member.now grantor.now)) }
{
    let role = role.clone()?;
    let member = member.clone()?;
    Ok(oid(ids, Key::Member(role, member, grantor.clone()?)))
}

// The row of a membership.
fn row_of(
    ids: &Ids,
    role: &Name,
    member: &Name,
    grantor: &Name,
    options: &Membership,
) -> Result<AuthMembersRow, AllocError>
    ensures { IfOk result (λ row. row ≡ member_row (of_keys ids.now) (record { role = role.now; member = member.now; grantor = grantor.now; options = options.now })) }
{
    let own = member_oid(ids, role, member, grantor)?;
    let of = role_oid(ids, role)?;
    let who = role_oid(ids, member)?;
    let by = role_oid(ids, grantor)?;
    Ok(member_row(own, of, who, by, options))
}

// The row of these three, where a membership stands under them.
fn named_member(
    ids: &Ids,
    role: &Name,
    member: &Name,
    grantor: &Name,
    value: &Value,
) -> Result<Option<AuthMembersRow>, AllocError>
    ensures { IfOk result (λ row. IsRowOf (λ m row. row ≡ member_row (of_keys ids.now) m) (member_in (key.Member role.now member.now grantor.now, value.now)) row) }
{
    match value {
        Value::Member(options) => Ok(Some(row_of(ids, role, member, grantor, options)?)),
        _ => Ok(None),
    }
}

// The row of an entry, where it is of a membership.
fn entry_row(ids: &Ids, key: &Key, value: &Value) -> Result<Option<AuthMembersRow>, AllocError>
    ensures { IfOk result (λ row. IsRowOf (λ m row. row ≡ member_row (of_keys ids.now) m) (member_in (key.now, value.now)) row) }
{
    match key {
        Key::Member(role, member, grantor) => named_member(ids, role, member, grantor, value),
        _ => Ok(None),
    }
}

/// The rows of pg_auth_members, one of each membership among the entries, in their order. The only error is want of memory.
/// See <https://www.postgresql.org/docs/16/catalog-pg-auth-members.html>.
pub fn member_rows(
    alloc: Global,
    ids: &Ids,
    entries: &[(&Key, &Value)],
) -> Result<Rows<AuthMembersRow>, AllocError>
    ensures { IfOk result (λ rows. AreSaid (λ m row. row ≡ member_row (of_keys ids.now) m) (filter_map member_in (map (deref_pair {K = TheKey} {X = TheValue}) entries.now)) rows) }
{
    let mut rows = Rows::new(alloc);
    for i in 0..entries.len() {
        let (key, value) = entries[i];
        push_some(&mut rows, entry_row(ids, key, value)?)?;
    }
    Ok(rows)
}

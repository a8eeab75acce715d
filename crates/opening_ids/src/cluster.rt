//! The oids of the cluster's rows.
ghost use Rattle.std.specs.Prelude.{◌≡◌, Some, OnOk, IfOk};
ghost use Rattle.cat_model.specs.declared.key.Key.TheVariants as key;
ghost use Rattle.cat_rows.specs.declared.roles.AuthidRow.{AuthidRow as TheAuthidRow};
ghost use Rattle.cat_rows.specs.declared.roles.AuthMembersRow.{AuthMembersRow as TheAuthMembersRow};
ghost use Rattle.cat_rows.specs.declared.roles.DatabaseRow.{DatabaseRow as TheDatabaseRow};
ghost use Rattle.cat_rows.specs.declared.schemas.NamespaceRow.{NamespaceRow as TheNamespaceRow};
ghost use Rattle.object_ids.specs.Slots.{object};
ghost use Rattle.opening_ids.specs.Opening.{of_role, of_member, of_database, of_schema, given, all_given, cluster_given};

use crate::giving::{give, give_slot};
use cat_book::Book;
use cat_model::Key;
use cat_rows::{AuthMembersRow, AuthidRow, DatabaseRow, NamespaceRow};
use copy_text::Name;
use object_ids::{Ids, Slot, object_slot};
use std::alloc::AllocError;

// A membership.
fn member_slot(role: &Name, member: &Name, grantor: &Name) -> Result<Slot, AllocError>
    ensures { IfOk result (λ slot. slot ≡ object (key.Member role.now member.now grantor.now)) }
{
    let role = role.clone()?;
    let member = member.clone()?;
    Ok(object_slot(Key::Member(role, member, grantor.clone()?)))
}

// The membership of a row, where its three oids are roles'.
fn slot_of(book: &Book<'_>, row: &AuthMembersRow) -> Result<Option<Slot>, AllocError>
    ensures { IfOk result (λ slot. slot ≡ of_member book.now row.now) }
{
    match (
        book.role_name(row.roleid),
        book.role_name(row.member),
        book.role_name(row.grantor),
    ) {
        (Some(role), Some(member), Some(grantor)) => {
            Ok(Some(member_slot(role, member, grantor)?))
        }
        _ => Ok(None),
    }
}

// Gives the oid of the row of a role.
fn give_role(ids: &mut Ids, row: &AuthidRow) -> Result<(), AllocError>
    ensures { OnOk result (ids.new ≡ given ids.old row.now.oid (of_role row.now)) }
{
    give_slot(ids, row.oid, object_slot(Key::Role(row.rolname.clone()?)))
}

fn give_roles(ids: &mut Ids, rows: &[AuthidRow]) -> Result<(), AllocError>
    ensures { OnOk result (ids.new ≡ all_given (λ (r : TheAuthidRow). r.oid) of_role ids.old rows.now) }
{
    for row in rows {
        give_role(ids, row)?;
    }
    Ok(())
}

// Gives the oid of the row of a membership.
fn give_member(book: &Book<'_>, ids: &mut Ids, row: &AuthMembersRow) -> Result<(), AllocError>
    ensures { OnOk result (ids.new ≡ given ids.old row.now.oid (of_member book.now row.now)) }
{
    give(ids, row.oid, slot_of(book, row)?)
}

fn give_members(book: &Book<'_>, ids: &mut Ids, rows: &[AuthMembersRow]) -> Result<(), AllocError>
    ensures { OnOk result (ids.new ≡ all_given (λ (r : TheAuthMembersRow). r.oid) (of_member book.now) ids.old rows.now) }
{
    for row in rows {
        give_member(book, ids, row)?;
    }
    Ok(())
}

// Gives the oid of the row of a database.
fn give_database(ids: &mut Ids, row: &DatabaseRow) -> Result<(), AllocError>
    ensures { OnOk result (ids.new ≡ given ids.old row.now.oid (of_database row.now)) }
{
    give_slot(
        ids,
        row.oid,
        object_slot(Key::Database(row.datname.clone()?)),
    )
}

fn give_databases(ids: &mut Ids, rows: &[DatabaseRow]) -> Result<(), AllocError>
    ensures { OnOk result (ids.new ≡ all_given (λ (r : TheDatabaseRow). r.oid) of_database ids.old rows.now) }
{
    for row in rows {
        give_database(ids, row)?;
    }
    Ok(())
}

// Gives the oid of the row of a schema.
fn give_schema(ids: &mut Ids, row: &NamespaceRow) -> Result<(), AllocError>
    ensures { OnOk result (ids.new ≡ given ids.old row.now.oid (of_schema row.now)) }
{
    give_slot(ids, row.oid, object_slot(Key::Schema(row.nspname.clone()?)))
}

fn give_schemas(ids: &mut Ids, rows: &[NamespaceRow]) -> Result<(), AllocError>
    ensures { OnOk result (ids.new ≡ all_given (λ (r : TheNamespaceRow). r.oid) of_schema ids.old rows.now) }
{
    for row in rows {
        give_schema(ids, row)?;
    }
    Ok(())
}

/// Gives the oids of roles, memberships, databases and schemas.
pub(crate) fn give_cluster(book: &Book<'_>, ids: &mut Ids) -> Result<(), AllocError>
    ensures { OnOk result (ids.new ≡ cluster_given book.now ids.old) }
{
    let cat = book.tables();
    give_roles(ids, cat.pg_authid.as_slice())?;
    give_members(book, ids, cat.pg_auth_members.as_slice())?;
    give_databases(ids, cat.pg_database.as_slice())?;
    give_schemas(ids, cat.pg_namespace.as_slice())
}

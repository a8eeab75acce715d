//! What the rows of roles, memberships, databases and schemas give.
ghost use Rattle.std.specs.Prelude.{◌≡◌, ◌++◌, IfOk, OnOk};
ghost use Rattle.std.specs.List.{flat_map};
ghost use Rattle.cat_names.specs.Naming.{role_entries, member_entries, database_entries, schema_entries};
ghost use Rattle.cat_naming.specs.Roles.{role_value, member_value};

use crate::entries::{push_grants, push_owner};
use cat_book::Book;
use cat_model::{Encoding, Key, Membership, Object, Role, Value};
use cat_names::GrantKind;
use cat_rows::{AuthMembersRow, AuthidRow, DatabaseRow, NamespaceRow};
use eng_map::{Entries, push_entry};
use std::alloc::{AllocError, Global};

// The attributes of a role.
fn role_value(row: &AuthidRow) -> Result<Role, AllocError>
    ensures { IfOk result (λ role. role ≡ role_value row.now) }
{
    Ok(Role {
        superuser: row.rolsuper,
        inherit: row.rolinherit,
        create_role: row.rolcreaterole,
        create_db: row.rolcreatedb,
        login: row.rolcanlogin,
        replication: row.rolreplication,
        bypass_rls: row.rolbypassrls,
        limit: row.rolconnlimit,
        password: row.rolpassword.clone()?,
        valid_until: row.rolvaliduntil.clone()?,
    })
}

// Adds a role's attributes.
fn push_role(entries: &mut Entries, row: &AuthidRow) -> Result<(), AllocError>
    ensures { OnOk result (entries.new.items ≡ entries.old.items ++ role_entries row.now) }
{
    let name = row.rolname.clone()?;
    let role = role_value(row)?;
    push_entry(entries, Key::Role(name), Value::Role(role))
}

/// Adds what the roles give.
pub(crate) fn add_roles(entries: &mut Entries, rows: &[AuthidRow]) -> Result<(), AllocError>
    ensures { OnOk result (entries.new.items ≡ entries.old.items ++ flat_map role_entries rows.now) }
{
    for row in rows {
        push_role(entries, row)?;
    }
    Ok(())
}

// What a membership allows.
fn member_value(row: &AuthMembersRow) -> Membership
    ensures { result ≡ member_value row.now }
{
    Membership {
        admin: row.admin_option,
        inherit: row.inherit_option,
        set: row.set_option,
    }
}

// Adds a membership, by the names of the role, its member and the grantor.
fn push_member(
    entries: &mut Entries,
    book: &Book<'_>,
    row: &AuthMembersRow,
) -> Result<(), AllocError>
    ensures { OnOk result (entries.new.items ≡ entries.old.items ++ member_entries book.now.pg_authid row.now) }
{
    let Some(role) = book.role_name(row.roleid) else {
        return Ok(());
    };
    let Some(member) = book.role_name(row.member) else {
        return Ok(());
    };
    let Some(grantor) = book.role_name(row.grantor) else {
        return Ok(());
    };
    let key = Key::Member(role.clone()?, member.clone()?, grantor.clone()?);
    push_entry(entries, key, Value::Member(member_value(row)))
}

/// Adds what the memberships give.
pub(crate) fn add_members(
    entries: &mut Entries,
    book: &Book<'_>,
    rows: &[AuthMembersRow],
) -> Result<(), AllocError>
    ensures { OnOk result (entries.new.items ≡ entries.old.items ++ flat_map (member_entries book.now.pg_authid) rows.now) }
{
    for row in rows {
        push_member(entries, book, row)?;
    }
    Ok(())
}

// Adds a database and its owner.
fn push_database(
    entries: &mut Entries,
    book: &Book<'_>,
    row: &DatabaseRow,
) -> Result<(), AllocError>
    ensures { OnOk result (entries.new.items ≡ entries.old.items ++ database_entries book.now.pg_authid row.now) }
{
    let Some(owner) = book.role_name(row.datdba) else {
        return Ok(());
    };
    let key = Key::Database(row.datname.clone()?);
    push_entry(entries, key, Value::Database(Encoding::Utf8))?;
    push_owner(entries, Object::Database(row.datname.clone()?), owner)
}

/// Adds what the databases give.
pub(crate) fn add_databases(
    entries: &mut Entries,
    book: &Book<'_>,
    rows: &[DatabaseRow],
) -> Result<(), AllocError>
    ensures { OnOk result (entries.new.items ≡ entries.old.items ++ flat_map (database_entries book.now.pg_authid) rows.now) }
{
    for row in rows {
        push_database(entries, book, row)?;
    }
    Ok(())
}

// Adds a schema, its owner and its grants.
fn push_schema(
    alloc: Global,
    entries: &mut Entries,
    book: &Book<'_>,
    row: &NamespaceRow,
) -> Result<(), AllocError>
    ensures { OnOk result (entries.new.items ≡ entries.old.items ++ schema_entries book.now.pg_authid row.now) }
{
    let Some(owner) = book.role_name(row.nspowner) else {
        return Ok(());
    };
    push_entry(entries, Key::Schema(row.nspname.clone()?), Value::Schema)?;
    push_owner(entries, Object::Schema(row.nspname.clone()?), owner)?;
    let object = Object::Schema(row.nspname.clone()?);
    push_grants(
        alloc,
        entries,
        GrantKind::Schema,
        object,
        owner,
        &row.nspacl,
    )
}

/// Adds what the schemas give.
pub(crate) fn add_schemas(
    alloc: Global,
    entries: &mut Entries,
    book: &Book<'_>,
    rows: &[NamespaceRow],
) -> Result<(), AllocError>
    ensures { OnOk result (entries.new.items ≡ entries.old.items ++ flat_map (schema_entries book.now.pg_authid) rows.now) }
{
    for row in rows {
        push_schema(alloc, entries, book, row)?;
    }
    Ok(())
}

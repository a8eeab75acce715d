//! Rows of roles, memberships, databases and schemas.
ghost use Rattle.std.specs.Prelude.{◌≡◌, IfOk, codes};
ghost use Rattle.cat_model.specs.declared.key.Key.TheVariants as key;
ghost use Rattle.cat_model.specs.Lexemes.{same_text};
ghost use Rattle.cat_model.specs.Values.{Bytes, Grants};
ghost use Rattle.cat_names.specs.declared.rights.GrantKind.TheVariants as on;
ghost use Rattle.named_tables.specs.Cluster.{role_row, member_row, database_row, IsSchemaRow};
ghost use Rattle.named_tables.specs.Oids.{Oids};
ghost use Rattle.named_tables.specs.Rights.{IsAcl};

use acl_text::Acl;
use cat_model::{Membership, Role};
use cat_rows::{AuthMembersRow, AuthidRow, DatabaseRow, NamespaceRow};
use copy_text::{Name, Text};
use std::alloc::AllocError;

/// The row of a role that has this oid. The only error is want of memory.
pub fn role_row(oid: u32, name: &Name, role: &Role) -> Result<AuthidRow, AllocError>
    ensures { IfOk result (λ row. (oids : Oids) → oids (key.Role name.now) ≡ oid → row ≡ role_row oids (record { name = name.now; role = role.now })) }
{
    Ok(AuthidRow {
        oid,
        rolname: name.clone()?,
        rolsuper: role.superuser,
        rolinherit: role.inherit,
        rolcreaterole: role.create_role,
        rolcreatedb: role.create_db,
        rolcanlogin: role.login,
        rolreplication: role.replication,
        rolbypassrls: role.bypass_rls,
        rolconnlimit: role.limit,
        rolpassword: role.password.clone()?,
        rolvaliduntil: role.valid_until.clone()?,
    })
}

/// The row of a membership by its oid and those of the role, the member and the grantor.
pub fn member_row(
    oid: u32,
    role: u32,
    member: u32,
    grantor: u32,
    options: &Membership,
) -> AuthMembersRow
    ensures { (oids : Oids) (of who by : Bytes) → oids (key.Member of who by) ≡ oid → oids (key.Role of) ≡ role → oids (key.Role who) ≡ member → oids (key.Role by) ≡ grantor → result ≡ member_row oids (record { role = of; member = who; grantor = by; options = options.now }) }
{
    AuthMembersRow {
        oid,
        roleid: role,
        member,
        grantor,
        admin_option: options.admin,
        inherit_option: options.inherit,
        set_option: options.set,
    }
}

/// The row of a database by its oid, its owner's, the name of its encoding and whether it is the current one.
pub fn database_row(
    oid: u32,
    name: &Name,
    owner: u32,
    encoding: Text,
    is_current: bool,
) -> Result<DatabaseRow, AllocError>
    ensures { IfOk result (λ row. (oids : Oids) (role current : Bytes) → oids (key.Database name.now) ≡ oid → oids (key.Role role) ≡ owner → encoding ≡ codes "UTF8" → is_current ≡ same_text name.now current → row ≡ database_row oids current (record { name = name.now; owner = role })) }
{
    Ok(DatabaseRow {
        oid,
        datname: name.clone()?,
        datdba: owner,
        encoding,
        datcurrent: is_current,
    })
}

/// The row of a schema by its oid, its owner's, and the list of its rights.
pub fn schema_row(
    oid: u32,
    name: &Name,
    owner: u32,
    rights: Option<Acl>,
) -> Result<NamespaceRow, AllocError>
    ensures { IfOk result (λ row. (oids : Oids) (role : Bytes) (grants : Grants) → oids (key.Schema name.now) ≡ oid → oids (key.Role role) ≡ owner → IsAcl on.Schema role grants rights → IsSchemaRow oids (record { name = name.now; owner = role; grants = grants }) row) }
{
    Ok(NamespaceRow {
        oid,
        nspname: name.clone()?,
        nspowner: owner,
        nspacl: rights,
    })
}

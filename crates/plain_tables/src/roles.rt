//! The conditions of pg_authid, pg_auth_members and pg_database.
ghost use Rattle.std.specs.Prelude.{◌≡◌, IfOk};
ghost use Rattle.std.specs.List.{list_any};
ghost use Rattle.plain_tables.specs.Roles.{is_public, are_roles, encoding_left_out, role_rules, member_rules, database_rules};

use cat_book::{Book, Conditions, RowKeys, Unmet};
use cat_model::What;
use cat_rows::{AuthMembersRow, AuthidRow, DatabaseRow};
use copy_text::{Name, Text};
use std::alloc::{AllocError, Global};

/// The oid of the role to which a new cluster's objects belong.
const BOOT: u32 = 10;

// `public` stands for all roles.
fn is_public(name: &Name) -> bool
    ensures { result ≡ is_public name.now }
{
    name.as_bytes() == b"public".as_slice()
}

/// pg_authid: oids and names are distinct, no role is called `public`, and the boot role is there.
/// <https://www.postgresql.org/docs/16/catalog-pg-authid.html>
pub struct Roles {}

impl<'b> Conditions<Book<'b>> for Roles {
    type Row = AuthidRow;

    ghost rules = { role_rules };

    fn keys(row: &AuthidRow) -> RowKeys<'_>
        ensures { result ≡ role_rules.keys row.now }
    {
        RowKeys::named(row.oid, row.rolname.as_bytes())
    }

    fn unmet(_alloc: Global, _book: &Book<'b>, row: &AuthidRow) -> Result<Unmet, AllocError> {
        Ok(Unmet {
            dangles: false,
            is_bad: is_public(&row.rolname),
            left_out: None,
        })
    }

    fn needed(book: &Book<'b>) -> bool {
        book.roles().has(BOOT)
    }
}

// Whether the role, its member and the grantor are roles.
fn are_roles(book: &Book<'_>, row: &AuthMembersRow) -> bool
    ensures { result ≡ are_roles book.now row.now }
{
    let roles = book.roles();
    roles.has(row.roleid) && roles.has(row.member) && roles.has(row.grantor)
}

/// pg_auth_members: oids are distinct, a role has a member only once by a grantor, and the three are roles.
/// <https://www.postgresql.org/docs/16/catalog-pg-auth-members.html>
pub struct Members {}

impl<'b> Conditions<Book<'b>> for Members {
    type Row = AuthMembersRow;

    ghost rules = { member_rules };

    fn keys(row: &AuthMembersRow) -> RowKeys<'_>
        ensures { result ≡ member_rules.keys row.now }
    {
        RowKeys {
            oid: Some(row.oid),
            name: Some((
                row.roleid,
                row.member,
                i64::from(row.grantor),
                b"".as_slice(),
            )),
            place: None,
            is_marked: false,
        }
    }

    fn unmet(_alloc: Global, book: &Book<'b>, row: &AuthMembersRow) -> Result<Unmet, AllocError> {
        Ok(Unmet {
            dangles: !are_roles(book, row),
            is_bad: false,
            left_out: None,
        })
    }

    fn needed(_book: &Book<'b>) -> bool {
        true
    }
}

// The one encoding.
fn encoding_left_out(encoding: &Text) -> Option<What>
    ensures { result ≡ encoding_left_out encoding.now }
{
    if encoding.as_bytes() == b"UTF8".as_slice() {
        None
    } else {
        Some(What::Encoding)
    }
}

// Whether one of the databases is the current one.
fn has_current(rows: &[DatabaseRow]) -> bool
    ensures { result ≡ list_any (λ d. d.datcurrent) rows.now }
{
    rows.iter().any(|d| d.datcurrent)
}

/// pg_database: oids and names are distinct, owners are roles, exactly one database is the current one, and encodings are
/// UTF8. <https://www.postgresql.org/docs/16/catalog-pg-database.html>
pub struct Databases {}

impl<'b> Conditions<Book<'b>> for Databases {
    type Row = DatabaseRow;

    ghost rules = { database_rules };

    fn keys(row: &DatabaseRow) -> RowKeys<'_>
        ensures { result ≡ database_rules.keys row.now }
    {
        RowKeys {
            oid: Some(row.oid),
            name: Some((0, 0, 0, row.datname.as_bytes())),
            place: None,
            is_marked: row.datcurrent,
        }
    }

    fn unmet(_alloc: Global, book: &Book<'b>, row: &DatabaseRow) -> Result<Unmet, AllocError> {
        Ok(Unmet {
            dangles: !book.roles().has(row.datdba),
            is_bad: false,
            left_out: encoding_left_out(&row.encoding),
        })
    }

    fn needed(book: &Book<'b>) -> bool {
        has_current(book.tables().pg_database.as_slice())
    }
}

//! The conditions of pg_namespace.
ghost use Rattle.std.specs.Prelude.{◌≡◌};
ghost use Rattle.cat_model.specs.References.{is_system};
ghost use Rattle.cat_names.specs.Rights.{other_left_out};
ghost use Rattle.plain_tables.specs.Schemas.{schema_rules};

use cat_book::{Book, Conditions, RowKeys, Unmet};
use cat_model::What;
use cat_names::{GrantKind, is_bad_acl, is_by_other};
use cat_rows::NamespaceRow;
use copy_text::Name;
use std::alloc::{AllocError, Global};

/// Whether a schema is one of the system's own, which have no rows.
pub fn is_system(name: &Name) -> bool
    ensures { result ≡ is_system name.now }
{
    let name = name.as_bytes();
    name == b"pg_catalog".as_slice() || name == b"information_schema".as_slice()
}

/// That another than the owner granted a right, where one did.
pub fn other_left_out(by_other: bool) -> Option<What>
    ensures { result ≡ other_left_out by_other }
{
    by_other.then_some(What::GrantByOther)
}

/// pg_namespace: oids and names are distinct, owners are roles and grant all rights, which are those of schemas, and the
/// system's own schemas have no rows. <https://www.postgresql.org/docs/16/catalog-pg-namespace.html>
pub struct Schemas {}

impl<'b> Conditions<Book<'b>> for Schemas {
    type Row = NamespaceRow;

    ghost rules = { schema_rules };

    fn keys(row: &NamespaceRow) -> RowKeys<'_>
        ensures { result ≡ schema_rules.keys row.now }
    {
        RowKeys::named(row.oid, row.nspname.as_bytes())
    }

    fn unmet(alloc: Global, book: &Book<'b>, row: &NamespaceRow) -> Result<Unmet, AllocError> {
        let bad_acl = is_bad_acl(alloc, GrantKind::Schema, book.roles(), &row.nspacl)?;
        let by_other = is_by_other(book.role_name(row.nspowner), &row.nspacl);
        Ok(Unmet {
            dangles: !book.roles().has(row.nspowner),
            is_bad: is_system(&row.nspname) || bad_acl,
            left_out: other_left_out(by_other),
        })
    }

    fn needed(_book: &Book<'b>) -> bool {
        true
    }
}

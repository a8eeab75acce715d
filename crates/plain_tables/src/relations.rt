//! The conditions of pg_class.
ghost use Rattle.std.specs.Prelude.{◌≡◌, IfOk};
ghost use Rattle.plain_tables.specs.Relations.{is_there, is_bad_relation_acl, kind_left_out, persistence_left_out, columns_left_out, relation_left_out, relation_rules};

use crate::schemas::other_left_out;
use cat_book::{Book, Conditions, RowKeys, Unmet};
use cat_model::What;
use cat_names::{
    GrantKind, RelationKind, RoleIndex, is_bad_acl, is_by_other, left_out_first, relation_kind,
};
use cat_rows::{Acl, ClassRow, Letter};
use std::alloc::{AllocError, Global};

/// The most columns that a table can have.
const MOST_COLUMNS: usize = 1600;

// Whether the rows are there that a relation's row leads to or needs.
fn is_there(book: &Book<'_>, row: &ClassRow) -> bool
    ensures { result ≡ is_there book.now row.now }
{
    book.has_schema(row.relnamespace)
        && book.roles().has(row.relowner)
        && book.has_own_row(relation_kind(row.relkind), row.oid)
}

fn is_bad_relation_acl(
    alloc: Global,
    kind: RelationKind,
    roles: &RoleIndex<'_>,
    acl: &Option<Acl>,
) -> Result<bool, AllocError>
    ensures { IfOk result (λ bad. bad ≡ is_bad_relation_acl kind roles.now acl.now) }
{
    match kind {
        RelationKind::Table | RelationKind::View => is_bad_acl(alloc, GrantKind::Table, roles, acl),
        RelationKind::Sequence => is_bad_acl(alloc, GrantKind::Sequence, roles, acl),
        RelationKind::Index => Ok(acl.is_some()),
        RelationKind::Other(_) => Ok(false),
    }
}

fn kind_left_out(kind: RelationKind) -> Option<What>
    ensures { result ≡ kind_left_out kind }
{
    match kind {
        RelationKind::Other(letter) => Some(What::RelKind(letter)),
        _ => None,
    }
}

fn persistence_left_out(letter: Letter) -> Option<What>
    ensures { result ≡ persistence_left_out letter }
{
    if letter.byte() == b'p' {
        None
    } else {
        Some(What::Persistence)
    }
}

fn columns_left_out(book: &Book<'_>, kind: RelationKind, oid: u32) -> Option<What>
    ensures { result ≡ columns_left_out book.now kind oid }
{
    match kind {
        RelationKind::Table => {
            if MOST_COLUMNS < book.column_count(oid) {
                Some(What::Columns)
            } else {
                None
            }
        }
        _ => None,
    }
}

// The first of what is left out.
fn relation_left_out(book: &Book<'_>, row: &ClassRow) -> Option<What>
    ensures { result ≡ relation_left_out book.now row.now }
{
    let kind = relation_kind(row.relkind);
    let by_other = is_by_other(book.role_name(row.relowner), &row.relacl);
    left_out_first(
        kind_left_out(kind),
        left_out_first(
            persistence_left_out(row.relpersistence),
            left_out_first(
                other_left_out(by_other),
                columns_left_out(book, kind, row.oid),
            ),
        ),
    )
}

/// pg_class: oids are distinct, and names within a schema; the schema, the owner and the row of the relation's own in
/// another table are there; the rights are those of the relation's kind.
/// <https://www.postgresql.org/docs/16/catalog-pg-class.html>
pub struct Relations {}

impl<'b> Conditions<Book<'b>> for Relations {
    type Row = ClassRow;

    ghost rules = { relation_rules };

    fn keys(row: &ClassRow) -> RowKeys<'_>
        ensures { result ≡ relation_rules.keys row.now }
    {
        RowKeys::named_in(row.oid, row.relnamespace, row.relname.as_bytes())
    }

    fn unmet(alloc: Global, book: &Book<'b>, row: &ClassRow) -> Result<Unmet, AllocError> {
        let kind = relation_kind(row.relkind);
        let is_bad = is_bad_relation_acl(alloc, kind, book.roles(), &row.relacl)?;
        Ok(Unmet {
            dangles: !is_there(book, row),
            is_bad,
            left_out: relation_left_out(book, row),
        })
    }

    fn needed(_book: &Book<'b>) -> bool {
        true
    }
}

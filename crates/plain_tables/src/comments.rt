//! The conditions of pg_description.
ghost use Rattle.std.specs.Prelude.{◌≡◌, is_some};
ghost use Rattle.cat_book.specs.Leads.{has_columns, constraint_of};
ghost use Rattle.cat_names.specs.Kinds.{kind_of, is_view};
ghost use Rattle.plain_tables.specs.Comments.{comment_class, is_commented_there, is_of_table, is_left_out, comment_left_out, comment_rules};

use cat_book::{Book, Conditions, RowKeys, Unmet};
use cat_model::What;
use cat_names::RelationKind;
use cat_rows::DescriptionRow;
use std::alloc::{AllocError, Global};

/// What a comment is on, by the system table that the object's row stands in.
#[derive(Clone, Copy)]
pub(crate) enum CommentClass {
    Schema,
    Type,
    Relation,
    Constraint,
    Other,
}

fn comment_class(oid: u32) -> CommentClass
    ensures { result ≡ comment_class oid }
{
    match oid {
        2615 => CommentClass::Schema,
        1247 => CommentClass::Type,
        1259 => CommentClass::Relation,
        2606 => CommentClass::Constraint,
        _ => CommentClass::Other,
    }
}

fn has_columns(kind: Option<RelationKind>) -> bool
    ensures { result ≡ has_columns kind }
{
    matches!(kind, Some(RelationKind::Table | RelationKind::View))
}

fn is_view(kind: Option<RelationKind>) -> bool
    ensures { result ≡ is_view kind }
{
    matches!(kind, Some(RelationKind::View))
}

// Whether the object of a comment is there.
fn is_commented_there(book: &Book<'_>, row: &DescriptionRow) -> bool
    ensures { result ≡ is_commented_there book.now (comment_class row.now.classoid) row.now }
{
    let whole = row.objsubid == 0;
    match comment_class(row.classoid) {
        CommentClass::Schema => whole && book.has_schema(row.objoid),
        CommentClass::Type => whole && book.type_of(row.objoid).is_some(),
        CommentClass::Relation => {
            let kind = book.kind_of(row.objoid);
            if whole {
                kind.is_some()
            } else {
                has_columns(kind) && book.has_number(row.objoid, row.objsubid)
            }
        }
        CommentClass::Constraint => whole && book.constraint_of(row.objoid).is_some(),
        CommentClass::Other => true,
    }
}

// Whether the constraint of an oid is a table's.
fn is_of_table(book: &Book<'_>, oid: u32) -> bool
    ensures { result ≡ is_of_table (constraint_of book.now oid) }
{
    match book.constraint_of(oid) {
        Some(row) => row.contypid == 0,
        None => false,
    }
}

fn is_left_out(book: &Book<'_>, row: &DescriptionRow) -> bool
    ensures { result ≡ is_left_out book.now (comment_class row.now.classoid) row.now }
{
    match comment_class(row.classoid) {
        CommentClass::Relation => row.objsubid != 0 && is_view(book.kind_of(row.objoid)),
        CommentClass::Constraint => !is_of_table(book, row.objoid),
        CommentClass::Other => true,
        CommentClass::Schema | CommentClass::Type => false,
    }
}

fn comment_left_out(out: bool) -> Option<What>
    ensures { result ≡ comment_left_out out }
{
    if out { Some(What::CommentKind) } else { None }
}

/// pg_description: an object has one comment, and is there.
/// <https://www.postgresql.org/docs/16/catalog-pg-description.html>
pub struct Comments {}

impl<'b> Conditions<Book<'b>> for Comments {
    type Row = DescriptionRow;

    ghost rules = { comment_rules };

    fn keys(row: &DescriptionRow) -> RowKeys<'_>
        ensures { result ≡ comment_rules.keys row.now }
    {
        RowKeys {
            oid: None,
            name: Some((row.classoid, row.objoid, row.objsubid, b"".as_slice())),
            place: None,
            is_marked: false,
        }
    }

    fn unmet(_alloc: Global, book: &Book<'b>, row: &DescriptionRow) -> Result<Unmet, AllocError> {
        Ok(Unmet {
            dangles: !is_commented_there(book, row),
            is_bad: false,
            left_out: comment_left_out(is_left_out(book, row)),
        })
    }

    fn needed(_book: &Book<'b>) -> bool {
        true
    }
}

//! The conditions of pg_rewrite.
ghost use Rattle.std.specs.Prelude.{◌≡◌, None, IfOk};
ghost use Rattle.std.specs.List.{list_all};
ghost use Rattle.cat_model.specs.References.{view_references};
ghost use Rattle.text_tables.specs.Agreeing.{is_met};
ghost use Rattle.text_tables.specs.Views.{is_good_body, view_rules};

use crate::agreeing::is_met;
use crate::columns::is_view;
use cat_book::{Book, Conditions, RowKeys, Unmet};
use cat_rows::RewriteRow;
use copy_text::Text;
use row_texts::view_body;
use std::alloc::{AllocError, Global};
use stmt_refs::view_refs;

// Whether all that a body refers to is there.
fn are_refs_met(alloc: Global, book: &Book<'_>, body: &[u8]) -> Result<bool, AllocError>
    ensures { IfOk result (λ are. are ≡ list_all (is_met book.now None) (view_references body.now)) }
{
    let keys = view_refs(alloc, body)?;
    Ok(keys.iter().all(|key| is_met(book, &None, key)))
}

// Whether there is a body, and all that it refers to is there.
fn is_good_body(alloc: Global, book: &Book<'_>, body: &Option<Text>) -> Result<bool, AllocError>
    ensures { IfOk result (λ good. good ≡ is_good_body book.now body.now) }
{
    match body {
        Some(body) => are_refs_met(alloc, book, body.as_bytes()),
        None => Ok(false),
    }
}

/// pg_rewrite: oids are distinct; a view, which is there, has one body with one semicolon behind it, whose references are
/// met. <https://www.postgresql.org/docs/16/catalog-pg-rewrite.html>
pub struct Views {}

impl<'b> Conditions<Book<'b>> for Views {
    type Row = RewriteRow;

    ghost rules = { view_rules };

    fn keys(row: &RewriteRow) -> RowKeys<'_>
        ensures { result ≡ view_rules.keys row.now }
    {
        RowKeys {
            oid: Some(row.oid),
            name: Some((row.ev_class, 0, 0, b"".as_slice())),
            place: None,
            is_marked: false,
        }
    }

    fn unmet(alloc: Global, book: &Book<'b>, row: &RewriteRow) -> Result<Unmet, AllocError> {
        let body = view_body(alloc, row.viewdef.as_bytes())?;
        let good = is_good_body(alloc, book, &body)?;
        Ok(Unmet {
            dangles: !is_view(book.kind_of(row.ev_class)),
            is_bad: !good,
            left_out: None,
        })
    }

    fn needed(_book: &Book<'b>) -> bool {
        true
    }
}

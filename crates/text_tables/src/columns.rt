//! The conditions of pg_attribute and pg_attrdef.
ghost use Rattle.std.specs.Prelude.{◌≡◌};
ghost use Rattle.cat_book.specs.Leads.{has_columns};
ghost use Rattle.cat_names.specs.Kinds.{is_view};
ghost use Rattle.text_tables.specs.Columns.{is_column_number, is_column_there, is_default_there, default_left_out, column_rules, default_rules};

use crate::agreeing::{is_met_default, is_type_named};
use cat_book::{Book, Conditions, RowKeys, Unmet};
use cat_model::What;
use cat_names::RelationKind;
use cat_rows::{AttrdefRow, AttributeRow};
use std::alloc::{AllocError, Global};

fn has_columns(kind: Option<RelationKind>) -> bool
    ensures { result ≡ has_columns kind }
{
    matches!(kind, Some(RelationKind::Table | RelationKind::View))
}

/// Whether there is a relation, and it is a view.
pub(crate) fn is_view(kind: Option<RelationKind>) -> bool
    ensures { result ≡ is_view kind }
{
    matches!(kind, Some(RelationKind::View))
}

fn is_column_number(number: i64) -> bool
    ensures { result ≡ is_column_number number }
{
    1 <= number
}

// Whether a column's relation and its type are there.
fn is_column_there(book: &Book<'_>, row: &AttributeRow) -> bool
    ensures { result ≡ is_column_there book.now row.now }
{
    has_columns(book.kind_of(row.attrelid)) && book.is_base_there(row.atttypid)
}

/// pg_attribute: names and numbers, which run from 1 with gaps, are distinct within a table or view, which is there with
/// the type, and the text names that type. <https://www.postgresql.org/docs/16/catalog-pg-attribute.html>
pub struct Columns {}

impl<'b> Conditions<Book<'b>> for Columns {
    type Row = AttributeRow;

    ghost rules = { column_rules };

    fn keys(row: &AttributeRow) -> RowKeys<'_>
        ensures { result ≡ column_rules.keys row.now }
    {
        RowKeys {
            oid: None,
            name: Some((row.attrelid, 0, 0, row.attname.as_bytes())),
            place: Some((row.attrelid, row.attnum)),
            is_marked: false,
        }
    }

    fn unmet(alloc: Global, book: &Book<'b>, row: &AttributeRow) -> Result<Unmet, AllocError> {
        let named = is_type_named(alloc, book, row.atttypid, &row.typtext)?;
        Ok(Unmet {
            dangles: !is_column_there(book, row),
            is_bad: !is_column_number(row.attnum) || !named,
            left_out: None,
        })
    }

    fn needed(_book: &Book<'b>) -> bool {
        true
    }
}

// Whether the column of a default is there, of a table or a view.
fn is_default_there(book: &Book<'_>, row: &AttrdefRow) -> bool
    ensures { result ≡ is_default_there book.now row.now }
{
    has_columns(book.kind_of(row.adrelid)) && book.has_number(row.adrelid, row.adnum)
}

// A default on a column of a view is left out.
fn default_left_out(book: &Book<'_>, row: &AttrdefRow) -> Option<What>
    ensures { result ≡ default_left_out book.now row.now }
{
    if is_view(book.kind_of(row.adrelid)) {
        Some(What::DefaultOnView)
    } else {
        None
    }
}

/// pg_attrdef: oids are distinct; a column, which is there, has one default, which is an expression whose references are
/// met; one on a column of a view is left out. <https://www.postgresql.org/docs/16/catalog-pg-attrdef.html>
pub struct Defaults {}

impl<'b> Conditions<Book<'b>> for Defaults {
    type Row = AttrdefRow;

    ghost rules = { default_rules };

    fn keys(row: &AttrdefRow) -> RowKeys<'_>
        ensures { result ≡ default_rules.keys row.now }
    {
        RowKeys {
            oid: Some(row.oid),
            name: Some((row.adrelid, 0, row.adnum, b"".as_slice())),
            place: None,
            is_marked: false,
        }
    }

    fn unmet(alloc: Global, book: &Book<'b>, row: &AttrdefRow) -> Result<Unmet, AllocError> {
        let good = is_met_default(alloc, book, &None, &row.adexpr)?;
        Ok(Unmet {
            dangles: !is_default_there(book, row),
            is_bad: !good,
            left_out: default_left_out(book, row),
        })
    }

    fn needed(_book: &Book<'b>) -> bool {
        true
    }
}

//! The conditions of pg_constraint.
ghost use Rattle.std.specs.Prelude.{◌≡◌, IfOk};
ghost use Rattle.cat_book.specs.Chains.{type_of};
ghost use Rattle.cat_names.specs.Kinds.{is_table, is_index};
ghost use Rattle.constraint_table.specs.Table.{is_known, is_domain_row, is_table_or_none, is_domain_or_none, is_index_or_none, is_index_there, is_parent_there, is_there, is_placed, is_bad_constraint, constraint_left_out, constraint_rules};

use crate::agreeing::{agrees_if_said, is_check, is_foreign};
use crate::beside::Beside;
use crate::constraint_text::constraint_said;
use cat_book::{Book, Conditions, RowKeys, Unmet, is_key};
use cat_model::What;
use cat_names::RelationKind;
use cat_rows::ConstraintRow;
use std::alloc::{AllocError, Global};

fn is_table(kind: Option<RelationKind>) -> bool
    ensures { result ≡ is_table kind }
{
    matches!(kind, Some(RelationKind::Table))
}

fn is_index(kind: Option<RelationKind>) -> bool
    ensures { result ≡ is_index kind }
{
    matches!(kind, Some(RelationKind::Index))
}

// Whether a constraint is of one of the four kinds.
fn is_known(row: &ConstraintRow) -> bool
    ensures { result ≡ is_known row.now }
{
    is_key(row) || is_foreign(row) || is_check(row)
}

// Whether an oid is that of a domain.
fn is_domain(book: &Book<'_>, oid: u32) -> bool
    ensures { result ≡ is_domain_row (type_of book.now.pg_type oid) }
{
    match book.type_of(oid) {
        Some(row) => row.typtype.byte() == b'd',
        None => false,
    }
}

// Whether an oid is that of a table, or 0, which stands for none.
fn is_table_or_none(book: &Book<'_>, oid: u32) -> bool
    ensures { result ≡ is_table_or_none book.now oid }
{
    oid == 0 || is_table(book.kind_of(oid))
}

fn is_domain_or_none(book: &Book<'_>, oid: u32) -> bool
    ensures { result ≡ is_domain_or_none book.now oid }
{
    oid == 0 || is_domain(book, oid)
}

fn is_index_or_none(book: &Book<'_>, oid: u32) -> bool
    ensures { result ≡ is_index_or_none book.now oid }
{
    oid == 0 || is_index(book.kind_of(oid))
}

// Whether the index is there, which a key must have.
fn is_index_there(book: &Book<'_>, row: &ConstraintRow) -> bool
    ensures { result ≡ is_index_there book.now row.now }
{
    if is_key(row) {
        is_index(book.kind_of(row.conindid))
    } else {
        is_index_or_none(book, row.conindid)
    }
}

// Whether the parent is there, which a foreign key must have.
fn is_parent_there(book: &Book<'_>, row: &ConstraintRow) -> bool
    ensures { result ≡ is_parent_there book.now row.now }
{
    if is_foreign(row) {
        is_table(book.kind_of(row.confrelid))
    } else {
        is_table_or_none(book, row.confrelid)
    }
}

// Whether all that a row names by oids is there.
fn is_there(book: &Book<'_>, row: &ConstraintRow) -> bool
    ensures { result ≡ is_there book.now row.now }
{
    is_table_or_none(book, row.conrelid)
        && is_domain_or_none(book, row.contypid)
        && is_index_there(book, row)
        && is_parent_there(book, row)
}

// Whether a constraint is one of a table, or a check of a domain.
fn is_placed(row: &ConstraintRow) -> bool
    ensures { result ≡ is_placed row.now }
{
    if row.contypid == 0 {
        row.conrelid != 0
    } else {
        row.conrelid == 0 && is_check(row)
    }
}

// Whether a row isn't placed, or has a bad text.
fn is_bad_constraint(
    alloc: Global,
    beside: &Beside<'_>,
    row: &ConstraintRow,
) -> Result<bool, AllocError>
    ensures { IfOk result (λ bad. bad ≡ is_bad_constraint beside.now row.now) }
{
    let said = constraint_said(alloc, row.condef.as_bytes())?;
    let agrees = agrees_if_said(alloc, beside, row, &said)?;
    Ok(!is_placed(row) || (is_known(row) && !agrees))
}

// A constraint of another kind is left out.
fn constraint_left_out(row: &ConstraintRow) -> Option<What>
    ensures { result ≡ constraint_left_out row.now }
{
    if is_known(row) {
        None
    } else {
        Some(What::ConstraintKind(row.contype.byte()))
    }
}

/// pg_constraint: oids are distinct, and names within a table or a domain; the tables, domains and indexes are there; each
/// text is that of its kind and agrees with the rows: columns are there, each once, a key has its own index, of its name and
/// in its table's schema, a table has one primary key, a foreign key's parent has a key on the columns that it names, and
/// what checks refer to is there. <https://www.postgresql.org/docs/16/catalog-pg-constraint.html>
pub struct Constraints {}

impl<'b> Conditions<Beside<'b>> for Constraints {
    type Row = ConstraintRow;

    ghost rules = { constraint_rules };

    fn keys(row: &ConstraintRow) -> RowKeys<'_>
        ensures { result ≡ constraint_rules.keys row.now }
    {
        RowKeys {
            oid: Some(row.oid),
            name: Some((row.conrelid, row.contypid, 0, row.conname.as_bytes())),
            place: None,
            is_marked: false,
        }
    }

    fn unmet(alloc: Global, beside: &Beside<'b>, row: &ConstraintRow) -> Result<Unmet, AllocError> {
        let is_bad = is_bad_constraint(alloc, beside, row)?;
        Ok(Unmet {
            dangles: !is_there(beside.book(), row),
            is_bad,
            left_out: constraint_left_out(row),
        })
    }

    fn needed(_beside: &Beside<'b>) -> bool {
        true
    }
}

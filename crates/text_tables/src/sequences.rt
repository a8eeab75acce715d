//! The conditions of pg_sequence.
ghost use Rattle.std.specs.Prelude.{◌≡◌, ◌&&◌, not, pos};
ghost use Rattle.std.specs.Ordering.{int_eq};
ghost use Rattle.cat_model.specs.RelationEffects.{at_most, within, in_kind, fits_sequence};
ghost use Rattle.cat_names.specs.Kinds.{is_sequence};
ghost use Rattle.text_tables.specs.Sequences.{is_owner_there, numbers, has_good_numbers, is_there, sequence_rules};

use crate::indexes::is_table;
use cat_book::{Book, Conditions, RowKeys, Unmet};
use cat_model::SequenceKind;
use cat_names::RelationKind;
use cat_rows::SequenceRow;
use row_texts::sequence_kind;
use std::alloc::{AllocError, Global};

fn is_sequence(kind: Option<RelationKind>) -> bool
    ensures { result ≡ is_sequence kind }
{
    matches!(kind, Some(RelationKind::Sequence))
}

// Whether the column that owns a sequence is there, or none owns it.
fn is_owner_there(book: &Book<'_>, row: &SequenceRow) -> bool
    ensures { result ≡ is_owner_there book.now row.now }
{
    if row.ownrel == 0 {
        true
    } else {
        is_table(book.kind_of(row.ownrel)) && book.has_number(row.ownrel, row.owncol)
    }
}

// Whether the sequence, and the column that owns it, are there.
fn is_there(book: &Book<'_>, row: &SequenceRow) -> bool
    ensures { result ≡ is_there book.now row.now }
{
    is_sequence(book.kind_of(row.seqrelid)) && is_owner_there(book, row)
}

fn within(low: i64, high: i64, number: i64) -> bool
    ensures { result ≡ within low high number }
{
    low <= number && number <= high
}

// Whether a number is of a type.
fn in_kind(kind: SequenceKind, number: i64) -> bool
    ensures { result ≡ in_kind kind number }
{
    match kind {
        SequenceKind::SmallInt => within(-32_768, 32_767, number),
        SequenceKind::Integer => within(-2_147_483_648, 2_147_483_647, number),
        SequenceKind::BigInt => true,
    }
}

// A sequence must move.
fn is_step(step: i64) -> bool
    ensures { result ≡ not (int_eq step (pos 0)) }
{
    step != 0
}

// Whether at least one value is kept ready.
fn keeps_one(cache: i64) -> bool
    ensures { result ≡ at_most (pos 1) cache }
{
    1 <= cache
}

// Whether the start and the bounds are of a type, and at least one value is kept ready.
fn are_in_kind(kind: SequenceKind, row: &SequenceRow) -> bool
    ensures { result ≡ (in_kind kind row.now.seqstart && (in_kind kind row.now.seqmin && (in_kind kind row.now.seqmax && at_most (pos 1) row.now.seqcache))) }
{
    in_kind(kind, row.seqstart)
        && in_kind(kind, row.seqmin)
        && in_kind(kind, row.seqmax)
        && keeps_one(row.seqcache)
}

// Whether the numbers are those of a sequence of this type.
fn fits_sequence(kind: SequenceKind, row: &SequenceRow) -> bool
    ensures { result ≡ fits_sequence (numbers kind row.now) }
{
    is_step(row.seqincrement)
        && within(row.seqmin, row.seqmax, row.seqstart)
        && are_in_kind(kind, row)
}

// Whether the type is one, the numbers are of it, and the last value lies between its bounds.
fn has_good_numbers(kind: Option<SequenceKind>, row: &SequenceRow) -> bool
    ensures { result ≡ has_good_numbers kind row.now }
{
    match kind {
        Some(kind) => { fits_sequence(kind, row) && within(row.seqmin, row.seqmax, row.last_value) }
        None => false,
    }
}

/// pg_sequence: a sequence stands once and is there, and so is the column that owns it; the text of the type is smallint,
/// integer or bigint; the start lies between the bounds, all three are of the type, the step isn't 0, at least one value is
/// kept ready, and the last value lies between the bounds. <https://www.postgresql.org/docs/16/sql-createsequence.html>
pub struct Sequences {}

impl<'b> Conditions<Book<'b>> for Sequences {
    type Row = SequenceRow;

    ghost rules = { sequence_rules };

    fn keys(row: &SequenceRow) -> RowKeys<'_>
        ensures { result ≡ sequence_rules.keys row.now }
    {
        RowKeys {
            oid: Some(row.seqrelid),
            name: None,
            place: None,
            is_marked: false,
        }
    }

    fn unmet(alloc: Global, book: &Book<'b>, row: &SequenceRow) -> Result<Unmet, AllocError> {
        let kind = sequence_kind(alloc, row.seqtype.as_bytes())?;
        Ok(Unmet {
            dangles: !is_there(book, row),
            is_bad: !has_good_numbers(kind, row),
            left_out: None,
        })
    }

    fn needed(_book: &Book<'b>) -> bool {
        true
    }
}

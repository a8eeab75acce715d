//! The conditions of pg_enum.
ghost use Rattle.std.specs.Prelude.{◌≡◌};
ghost use Rattle.cat_book.specs.Chains.{type_of};
ghost use Rattle.plain_tables.specs.Labels.{is_enum_letter, is_enum, is_place, label_rules};

use cat_book::{Book, Conditions, RowKeys, Unmet};
use cat_rows::{EnumRow, Letter};
use std::alloc::{AllocError, Global};

fn is_enum_letter(letter: Letter) -> bool
    ensures { result ≡ is_enum_letter letter }
{
    letter.byte() == b'e'
}

// Whether the type of an oid is an enum.
fn is_enum(book: &Book<'_>, oid: u32) -> bool
    ensures { result ≡ is_enum (type_of book.now.pg_type oid) }
{
    match book.type_of(oid) {
        Some(row) => is_enum_letter(row.typtype),
        None => false,
    }
}

// Whether this is a place among so many labels.
fn is_place(count: usize, place: i64) -> bool
    ensures { result ≡ is_place count place }
{
    match u64::try_from(place) {
        Ok(place) => 1 <= place && place <= count as u64,
        Err(_) => false,
    }
}

/// pg_enum: oids are distinct, and labels and places within a type, which is an enum; the places run from 1.
/// <https://www.postgresql.org/docs/16/catalog-pg-enum.html>
pub struct Labels {}

impl<'b> Conditions<Book<'b>> for Labels {
    type Row = EnumRow;

    ghost rules = { label_rules };

    fn keys(row: &EnumRow) -> RowKeys<'_>
        ensures { result ≡ label_rules.keys row.now }
    {
        RowKeys {
            oid: Some(row.oid),
            name: Some((row.enumtypid, 0, 0, row.enumlabel.as_bytes())),
            place: Some((row.enumtypid, row.enumpos)),
            is_marked: false,
        }
    }

    fn unmet(_alloc: Global, book: &Book<'b>, row: &EnumRow) -> Result<Unmet, AllocError> {
        Ok(Unmet {
            dangles: !is_enum(book, row.enumtypid),
            is_bad: !is_place(book.label_count(row.enumtypid), row.enumpos),
            left_out: None,
        })
    }

    fn needed(_book: &Book<'b>) -> bool {
        true
    }
}

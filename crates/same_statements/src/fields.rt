//! Whether two fields of statements are the same.
ghost use Rattle.std.specs.Prelude.{◌≡◌, ◌↔◌, IsTrue};

use cat_model::{Encoding, Grantee, Items, QName, Rights, SequenceKind, TypeName};
use copy_text::{Name, Text};

/// Whether two names are the same.
pub(crate) fn same_name(a: &Name, b: &Name) -> bool
    ensures { IsTrue result ↔ (a.now ≡ b.now) }
{
    a == b
}

/// Whether two texts are the same.
pub(crate) fn same_text(a: &Text, b: &Text) -> bool
    ensures { IsTrue result ↔ (a.now ≡ b.now) }
{
    a == b
}

/// Whether two qualified names are the same.
pub(crate) fn same_path(a: &QName, b: &QName) -> bool
    ensures { IsTrue result ↔ (a.now ≡ b.now) }
{
    a == b
}

/// Whether two types have the same name.
pub(crate) fn same_type_name(a: &TypeName, b: &TypeName) -> bool
    ensures { IsTrue result ↔ (a.now ≡ b.now) }
{
    a == b
}

/// Whether two numbers are the same.
pub(crate) fn same_number(a: i64, b: i64) -> bool
    ensures { IsTrue result ↔ (a ≡ b) }
{
    a == b
}

/// Whether the same number stands in two places.
pub(crate) fn same_number_at(a: &i64, b: &i64) -> bool
    ensures { IsTrue result ↔ (a.now ≡ b.now) }
{
    *a == *b
}

/// Whether the same names stand in two lists.
pub(crate) fn same_names(a: &Items<Name>, b: &Items<Name>) -> bool
    ensures { IsTrue result ↔ (a.now ≡ b.now) }
{
    a == b
}

/// Whether the same texts stand in two lists.
pub(crate) fn same_texts(a: &Items<Text>, b: &Items<Text>) -> bool
    ensures { IsTrue result ↔ (a.now ≡ b.now) }
{
    a == b
}

/// Whether two texts of rows are the same.
pub(crate) fn same_bytes(a: &[u8], b: &[u8]) -> bool
    ensures { IsTrue result ↔ (a.now ≡ b.now) }
{
    a == b
}

/// Whether both are the same text, or neither is there.
pub(crate) fn same_text_or_none(a: &Option<Text>, b: &Option<Text>) -> bool
    ensures { IsTrue result ↔ (a.now ≡ b.now) }
{
    match (a, b) {
        (None, None) => true,
        (Some(a), Some(b)) => a == b,
        _ => false,
    }
}

/// Whether both are the same name, or neither is there.
pub(crate) fn same_name_or_none(a: &Option<Name>, b: &Option<Name>) -> bool
    ensures { IsTrue result ↔ (a.now ≡ b.now) }
{
    match (a, b) {
        (None, None) => true,
        (Some(a), Some(b)) => a == b,
        _ => false,
    }
}

/// Whether both are the same number, or neither is there.
pub(crate) fn same_number_or_none(a: Option<i64>, b: Option<i64>) -> bool
    ensures { IsTrue result ↔ (a ≡ b) }
{
    match (a, b) {
        (None, None) => true,
        (Some(a), Some(b)) => same_number(a, b),
        _ => false,
    }
}

/// Whether both say the same, or neither says anything.
pub(crate) fn same_choice(a: Option<bool>, b: Option<bool>) -> bool
    ensures { IsTrue result ↔ (a ≡ b) }
{
    match (a, b) {
        (None, None) => true,
        (Some(a), Some(b)) => a == b,
        _ => false,
    }
}

/// Whether two sequences have numbers of the same type.
pub(crate) fn same_sequence_kind(a: SequenceKind, b: SequenceKind) -> bool
    ensures { IsTrue result ↔ (a ≡ b) }
{
    a == b
}

fn same_encoding(a: Encoding, b: Encoding) -> bool
    ensures { IsTrue result ↔ (a ≡ b) }
{
    a == b
}

/// Whether both are the same encoding, or neither is there.
pub(crate) fn same_encoding_or_none(a: Option<Encoding>, b: Option<Encoding>) -> bool
    ensures { IsTrue result ↔ (a ≡ b) }
{
    match (a, b) {
        (None, None) => true,
        (Some(a), Some(b)) => same_encoding(a, b),
        _ => false,
    }
}

// Whether two sets have the same rights to read and write.
fn same_uses(a: Rights, b: Rights) -> bool
    ensures { IsTrue result ↔ ((a.select ≡ b.select) × (a.usage ≡ b.usage) × (a.insert ≡ b.insert) × (a.delete ≡ b.delete) × (a.update ≡ b.update)) }
{
    a.select == b.select
        && a.usage == b.usage
        && a.insert == b.insert
        && a.delete == b.delete
        && a.update == b.update
}

/// Whether two sets have the same rights.
pub(crate) fn same_rights(a: Rights, b: Rights) -> bool
    ensures { IsTrue result ↔ (a ≡ b) }
{
    same_uses(a, b)
        && a.references == b.references
        && a.trigger == b.trigger
        && a.truncate == b.truncate
        && a.create == b.create
}

/// Whether the rights are granted to the same.
pub(crate) fn same_grantee(a: &Grantee, b: &Grantee) -> bool
    ensures { IsTrue result ↔ (a.now ≡ b.now) }
{
    match (a, b) {
        (Grantee::Public, Grantee::Public) => true,
        (Grantee::Role(a), Grantee::Role(b)) => same_name(a, b),
        _ => false,
    }
}

//! Which type a column's type is.
ghost use Rattle.std.specs.Prelude.{◌≡◌, IfOk, map};
ghost use Rattle.cat_model.specs.FieldTypes as says;
ghost use Rattle.cat_model.specs.FieldTypes.{field_type, type_of_word, type_of_lexemes, with_length};
ghost use Rattle.field_values.specs.declared.field_type.FieldType.TheVariants as types;
ghost use Rattle.stmt_refs.specs.Said.{said};
ghost use Rattle.field_values.specs.Seen.{seen, with_limit};

use crate::field_type::FieldType;
use crate::number::{are_digits, number};
use cat_model::TypeName;
use std::alloc::{AllocError, Global};
use stmt_refs::{Lexeme, lexemes};

/// The type of fields that a type is: by its words, in any letter case and spacing.
pub(crate) fn field_type(alloc: Global, type_name: &TypeName) -> Result<FieldType, AllocError>
    ensures { IfOk result (λ t. t ≡ seen (field_type type_name.now)) }
{
    match type_name {
        TypeName::Words(text) => {
            let lexemes = lexemes(alloc, text.as_bytes())?;
            Ok(type_of_lexemes(&lexemes))
        }
        TypeName::Path(_) => Ok(FieldType::Opaque),
    }
}

fn type_of_lexemes(lexemes: &[Lexeme]) -> FieldType
    ensures { result ≡ seen (type_of_lexemes (map said lexemes.now)) }
{
    match lexemes {
        [w] => type_of_word(w),
        [w, before, n, after] if w.is_word(b"character") => character(length_between(
            before, n, after,
        )),
        [w, v, before, n, after] if w.is_word(b"character") && v.is_word(b"varying") => varying(
            length_between(before, n, after),
        ),
        _ => FieldType::Opaque,
    }
}

// The type of one word.
fn type_of_word(word: &Lexeme) -> FieldType
    ensures { result ≡ seen (type_of_word (said word.now)) }
{
    if word.is_word(b"boolean") {
        FieldType::Boolean
    } else if word.is_word(b"smallint") {
        FieldType::SmallInt
    } else if word.is_word(b"integer") {
        FieldType::Integer
    } else if word.is_word(b"bigint") {
        FieldType::BigInt
    } else if word.is_word(b"oid") {
        FieldType::Oid
    } else if word.is_word(b"bytea") {
        FieldType::Bytea
    } else if word.is_word(b"character") {
        FieldType::Character(1)
    } else {
        FieldType::Opaque
    }
}

fn character(limit: Option<u64>) -> FieldType
    ensures { result ≡ with_limit types.Character limit }
{
    match limit {
        Some(n) => FieldType::Character(n),
        None => FieldType::Opaque,
    }
}

fn varying(limit: Option<u64>) -> FieldType
    ensures { result ≡ with_limit types.Varying limit }
{
    match limit {
        Some(n) => FieldType::Varying(n),
        None => FieldType::Opaque,
    }
}

// The length that stands between brackets.
fn length_between(before: &Lexeme, length: &Lexeme, after: &Lexeme) -> Option<u64>
    ensures character { seen (with_length says.character (said before.now) (said length.now) (said after.now)) ≡ with_limit types.Character result }
    ensures varying { seen (with_length says.varying (said before.now) (said length.now) (said after.now)) ≡ with_limit types.Varying result }
{
    match length {
        Lexeme::Number(digits)
            if before.is_sign(b'(') && after.is_sign(b')') && are_digits(digits) => Some(number(
            digits,
        )),
        _ => None,
    }
}

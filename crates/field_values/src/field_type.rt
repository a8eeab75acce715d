//! The types whose values are looked at.
ghost use Rattle.std.specs.Prelude.{◌≡◌, List, ℕ};
ghost use Rattle.cat_model.specs.FieldTypes as says;
ghost use Rattle.cat_model.specs.FieldTypes.{is_value, compared_as};
ghost use Rattle.field_values.specs.Seen.{seen};

use crate::bytea::{characters, is_bytea};
use crate::compared::trimmed;
use crate::number::is_number;

/// A type of fields; the last takes any text.
#[derive(Clone, Copy)]
pub(crate) enum FieldType {
    /// `boolean`: `t` or `f`.
    Boolean,
    /// 16 bits.
    SmallInt,
    /// 32 bits.
    Integer,
    /// 64 bits.
    BigInt,
    /// 32 bits without a sign.
    Oid,
    /// Hexadecimal digits.
    Bytea,
    /// `character varying`, with its greatest number of characters.
    Varying(u64),
    /// `character`, with its greatest number of characters.
    Character(u64),
    /// Any other type.
    Opaque,
}

impl FieldType {
    /// Whether a text is a value of the type.
    pub(crate) fn takes(self, text: &[u8]) -> bool
        ensures { (t : says.FieldType) → self ≡ seen t → result ≡ is_value t text.now }
    {
        match self {
            FieldType::Boolean => text == b"t".as_slice() || text == b"f".as_slice(),
            FieldType::SmallInt => is_number(text, 32_768, 32_767),
            FieldType::Integer => is_number(text, 2_147_483_648, 2_147_483_647),
            FieldType::BigInt => is_number(
                text,
                9_223_372_036_854_775_808,
                9_223_372_036_854_775_807,
            ),
            FieldType::Oid => is_number(text, 0, 4_294_967_295),
            FieldType::Bytea => is_bytea(text),
            FieldType::Varying(n) | FieldType::Character(n) => characters(text) as u64 <= n,
            FieldType::Opaque => true,
        }
    }

    /// The bytes by which a value of the type is compared: values are equal where these are.
    pub(crate) fn compared(self, text: &[u8]) -> &[u8]
        ensures { (t : says.FieldType) → self ≡ seen t → result.now ≡ compared_as t text.now }
    {
        match self {
            FieldType::Character(_) => trimmed(text),
            _ => text,
        }
    }
}

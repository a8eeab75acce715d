//! The values that texts stand for.
ghost use Rattle.std.specs.Prelude.{◌≡◌, IfOk, decimal};
ghost use Rattle.std.specs.Fmt.{signed_decimal};
ghost use Rattle.std.specs.Str.{bytes_eq};
ghost use Rattle.cat_rows.specs.Numbers.{oid_of, int_of};
ghost use Rattle.cat_rows.specs.Cells.{bool_of, name_of, letter_of};

use crate::letter::Letter;
use copy_text::{Name, Text};
use itoa::Buffer;
use std::alloc::{AllocError, Global};

/// The oid that a text is the plain decimal of.
pub(crate) fn read_oid(text: &Text) -> Option<u32>
    ensures { result ≡ oid_of text.now }
{
    match text.as_str().parse() {
        Ok(oid) if is_decimal(oid, text) => Some(oid),
        _ => None,
    }
}

/// The integer that a text is the plain decimal of.
pub(crate) fn read_int(text: &Text) -> Option<i64>
    ensures { result ≡ int_of text.now }
{
    match text.as_str().parse() {
        Ok(number) if is_signed_decimal(number, text) => Some(number),
        _ => None,
    }
}

fn is_decimal(oid: u32, text: &Text) -> bool
    ensures { result ≡ bytes_eq (decimal oid) text.now }
{
    Buffer::new().format(oid).as_bytes() == text.as_bytes()
}

fn is_signed_decimal(number: i64, text: &Text) -> bool
    ensures { result ≡ bytes_eq (signed_decimal number) text.now }
{
    Buffer::new().format(number).as_bytes() == text.as_bytes()
}

/// `t` or `f`.
pub(crate) fn read_bool(text: &Text) -> Option<bool>
    ensures { result ≡ bool_of text.now }
{
    let bytes = text.as_bytes();
    if bytes == b"t".as_slice() {
        Some(true)
    } else if bytes == b"f".as_slice() {
        Some(false)
    } else {
        None
    }
}

/// The name that a text is.
pub(crate) fn read_name(alloc: Global, text: &Text) -> Result<Option<Name>, AllocError>
    ensures { IfOk result (λ name. name ≡ name_of text.now) }
{
    let bytes = Vec::from_slice(alloc, text.as_bytes())?;
    Ok(Name::new(bytes))
}

/// The one byte of a text.
pub(crate) fn read_letter(text: &Text) -> Option<Letter>
    ensures { result ≡ letter_of text.now }
{
    match text.as_bytes() {
        [byte] => Letter::new(*byte),
        _ => None,
    }
}

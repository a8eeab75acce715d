//! Reading fields from the front of bytes.
ghost use Rattle.std.specs.Prelude.{◌≡◌, IfOk, Some};
ghost use Rattle.std.specs.Int.{w32, w64};
ghost use Rattle.std.specs.Option.{option_copied};
ghost use Rattle.dump_ports.specs.Moment.{IsPart};
ghost use Rattle.toc_parts.specs.declared.fault.FieldFault.TheVariants.{Short};
ghost use Rattle.toc_parts.specs.Fields.{byte, number, integer, signed, natural_of, text_length, span, string, text_of, are_digits, number_in};
ghost use Rattle.toc_parts.specs.Answers.{Gives, fault_of};

use crate::fault::{FieldError, FieldFault};
use copy_text::Text;
use std::alloc::Global;

/// The byte at the front, and the bytes behind it.
pub fn byte(rest: &[u8]) -> Result<(u8, &[u8]), FieldFault>
    ensures { Gives Some (λ x. (x.0, x.1.now)) result ((byte Short).read rest.now) }
{
    match rest {
        [] => Err(FieldFault::Short),
        [first, behind @ ..] => Ok((*first, behind)),
    }
}

/// The number of four bytes at the front, least significant first, and the bytes behind it.
pub fn number(rest: &[u8]) -> Result<(u32, &[u8]), FieldFault>
    ensures { Gives Some (λ x. (x.0, x.1.now)) result ((number Short w32).read rest.now) }
{
    if rest.len() < 4 {
        return Err(FieldFault::Short);
    }
    let (front, behind) = rest.split_at(4);
    let number = u32::from_le_bytes([front[0], front[1], front[2], front[3]]);
    Ok((number, behind))
}

/// The number of eight bytes at the front, least significant first, and the bytes behind it.
pub fn number_of_eight(rest: &[u8]) -> Result<(u64, &[u8]), FieldFault>
    ensures { Gives Some (λ x. (x.0, x.1.now)) result ((number Short w64).read rest.now) }
{
    if rest.len() < 8 {
        return Err(FieldFault::Short);
    }
    let (front, behind) = rest.split_at(8);
    let number = u64::from_le_bytes([
        front[0], front[1], front[2], front[3], front[4], front[5], front[6], front[7],
    ]);
    Ok((number, behind))
}

/// The integer at the front, strictly between -2^32 and 2^32, and the bytes behind it.
#[tactic(auto, unfolding(crate::specs::Fields::integer))]
pub fn integer(rest: &[u8]) -> Result<(i64, &[u8]), FieldFault>
    ensures read { Gives Some (λ x. (x.0, x.1.now)) result ((integer Short).read rest.now) }
    ensures range { IfOk result (λ x. IsPart x.0) }
{
    let (sign, rest) = byte(rest)?;
    let (magnitude, rest) = number(rest)?;
    Ok((signed(sign, magnitude), rest))
}

fn signed(sign: u8, magnitude: u32) -> i64
    ensures value { result ≡ signed (sign, magnitude) }
    ensures range { IsPart result }
{
    if sign == 0 {
        i64::from(magnitude)
    } else {
        -i64::from(magnitude)
    }
}

/// The number where it isn't below zero.
pub fn natural(n: i64) -> Option<u32>
    requires { IsPart n }
    ensures { result ≡ natural_of n }
{
    if n < 0 { None } else { Some(n as u32) }
}

/// The bytes of the string at the front, `None` where it isn't there, and the bytes behind it.
///
/// The bytes may be no text. It takes no memory.
#[tactic(auto, unfolding(crate::specs::Fields::span))]
pub fn span(rest: &[u8]) -> Result<(Option<&[u8]>, &[u8]), FieldFault>
    ensures { Gives Some (λ x. (option_copied x.0, x.1.now)) result (span.read rest.now) }
{
    let (length, behind) = length(rest)?;
    let Some(length) = length else {
        return Ok((None, behind));
    };
    let length = length as usize;
    if behind.len() < length {
        return Err(FieldFault::Short);
    }
    let (bytes, behind) = behind.split_at(length);
    Ok((Some(bytes), behind))
}

/// The length of the string at the front, `None` where there is no string, and the bytes behind the length.
fn length(rest: &[u8]) -> Result<(Option<u32>, &[u8]), FieldFault>
    ensures { Gives Some (λ x. (x.0, x.1.now)) result (text_length.read rest.now) }
{
    let (length, behind) = integer(rest)?;
    match natural(length) {
        Some(length) => Ok((Some(length), behind)),
        None if length == -1 => Ok((None, behind)),
        None => Err(FieldFault::BadString { left: rest.len() }),
    }
}

/// The string at the front as a part of the bytes, `None` where it isn't there, and the bytes behind it.
///
/// It takes no memory.
#[tactic(auto, unfolding(crate::specs::Fields::string))]
pub fn text(rest: &[u8]) -> Result<(Option<&str>, &[u8]), FieldFault>
    ensures { Gives Some (λ x. (option_copied x.0, x.1.now)) result (string.read rest.now) }
{
    let (bytes, behind) = span(rest)?;
    let Some(bytes) = bytes else {
        return Ok((None, behind));
    };
    match as_text(bytes) {
        Some(text) => Ok((Some(text), behind)),
        None => Err(FieldFault::BadString { left: rest.len() }),
    }
}

/// The bytes as text, where they are UTF-8.
fn as_text(bytes: &[u8]) -> Option<&str>
    ensures { option_copied result ≡ text_of bytes.now }
{
    match str::from_utf8(bytes) {
        Ok(text) => Some(text),
        Err(_) => None,
    }
}

/// The string at the front, `None` where it isn't there, and the bytes behind it.
#[tactic(auto, unfolding(crate::specs::Fields::string))]
pub fn string(alloc: Global, rest: &[u8]) -> Result<(Option<Text>, &[u8]), FieldError>
    ensures { Gives fault_of (λ x. (x.0, x.1.now)) result (string.read rest.now) }
{
    let (bytes, behind) = span(rest)?;
    let Some(bytes) = bytes else {
        return Ok((None, behind));
    };
    let text = Text::new(Vec::from_slice(alloc, bytes)?);
    match text {
        Some(text) => Ok((Some(text), behind)),
        None => Err(FieldError::Fault(FieldFault::BadString { left: rest.len() })),
    }
}

fn are_digits(text: &[u8]) -> bool
    ensures { result ≡ are_digits text.now }
{
    text.iter().all(|byte| byte.is_ascii_digit())
}

/// The number below 2^32 of which a text has the digits, one at least; zeros may lead.
pub fn number_in(text: &str) -> Option<u32>
    ensures { result ≡ number_in text.now }
{
    if are_digits(text.as_bytes()) {
        text.parse::<u32>().ok()
    } else {
        None
    }
}

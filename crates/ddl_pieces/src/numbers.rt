//! Whole numbers.
ghost use Rattle.std.specs.Prelude.{◌≡◌, ◌<◌, ◌^◌, ◌+◌, length, drop, IfSome, IfOk};
ghost use Rattle.std.specs.List.{list_all};
ghost use Rattle.sql_lex.specs.Bytes.{is_digit};
ghost use Rattle.ddl_parts.specs.Pieces.{GivesPart};
ghost use Rattle.ddl_parts.specs.Numbers.{digits_below, count_first, count, opposite, whole_number};

use crate::pieces::Pieces;
use crate::read;
use ddl_parts::{Halt, Parsed, ReadError};

/// One more than the greatest number of 64 bits.
pub const LIMIT: u64 = 1 << 63;

#[tactic(auto, unfolding(sql_lex::specs::Bytes::is_digit))]
fn is_digit(byte: u8) -> bool
    ensures { result ≡ is_digit byte }
{
    byte.is_ascii_digit()
}

fn are_digits(word: &[u8]) -> bool
    ensures { result ≡ list_all is_digit word.now }
{
    word.iter().all(|byte| is_digit(*byte))
}

/// The number of digits, where it is below a limit.
#[tactic(auto, using(crate::proofs::DigitParsing::are_utf8, crate::proofs::DigitParsing::unparsed), unfolding(ddl_parts::specs::Numbers::digits_below))]
fn digits_below(word: &[u8], limit: u64) -> Option<u64>
    requires some { 0 < length word.now }
    ensures exact { result ≡ digits_below limit word.now }
    ensures low { IfSome result (λ n. n < limit) }
{
    if !are_digits(word) {
        return None;
    }
    let Ok(text) = str::from_utf8(word) else {
        return None;
    };
    match text.parse::<u64>() {
        Ok(number) if number < limit => Some(number),
        _ => None,
    }
}

/// The number at a place of the tokens, where it is whole and below a limit.
pub fn count_first(pieces: &Pieces<'_>, at: usize, limit: u64) -> Option<u64>
    ensures exact { result ≡ count_first limit (drop at pieces.now) }
    ensures low { IfSome result (λ n. n < limit) }
{
    digits_below(pieces.number(at)?, limit)
}

/// The number with a minus sign; it is at most 2^63.
pub fn opposite(number: u64) -> i64
    requires { number < 2 ^ 63 + 1 }
    ensures { result ≡ opposite number }
{
    if number == 0 {
        0
    } else {
        -1 - (number - 1) as i64
    }
}

/// The number at a place, where it is below a limit, and the place behind it.
#[tactic(auto, using(crate::proofs::Places::token_here), unfolding(ddl_parts::specs::Numbers::count_value))]
fn count(pieces: &Pieces<'_>, at: usize, limit: u64) -> Parsed<u64>
    ensures exact { GivesPart pieces.now (λ n. n) result ((count limit).read (drop at pieces.now)) }
    ensures low { IfOk result (λ x. x.0 < limit) }
{
    if at >= pieces.len() {
        return Err(ReadError::Halted(Halt { long: false, at }));
    }
    match count_first(pieces, at, limit) {
        Some(number) => Ok((number, at + 1)),
        None => Err(ReadError::Halted(Halt { long: false, at })),
    }
}

/// The whole number of 64 bits at a place, digits or a minus sign and digits, and the place behind it.
///
/// `Halted` tells the first token with which no such number goes on.
#[tactic(auto, unfolding(ddl_parts::specs::Numbers::whole_number))]
pub fn whole_number(pieces: &Pieces<'_>, at: usize) -> Parsed<i64>
    ensures { GivesPart pieces.now (λ n. n) result (whole_number.read (drop at pieces.now)) }
{
    if let Some(at) = pieces.after_sign(at, b'-') {
        return read!(pieces, at; number: count[pieces, at, LIMIT + 1] => opposite(number));
    }
    read!(pieces, at; number: count[pieces, at, LIMIT] => number as i64)
}

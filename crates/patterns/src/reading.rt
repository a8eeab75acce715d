//! Patterns out of texts.
ghost use Rattle.std.specs.Prelude.{◌≡◌, [], Some, None, true, false, if◌then◌else◌, IfOk};
ghost use Rattle.patterns.specs.declared.marks.Quotes.TheVariants.{Outside};
ghost use Rattle.patterns.specs.Parts.{parts_from, has_empty};
ghost use Rattle.patterns.specs.Reading.{marks_from, open_from, second_dot_from, fault_of, pattern_of, Gives};

use crate::atom::Part;
use crate::fault::{PatternFault, PatternReadError};
use crate::marks::{Mark, Quotes};
use crate::pattern::Pattern;
use std::alloc::{AllocError, Global};
use std::mem;

/// Where the quotes opened that have no end.
#[tactic(auto, using(crate::proofs::Steps::open_more, crate::proofs::Steps::open_none))]
fn open_quote(text: &[u8]) -> Option<usize>
    ensures { result ≡ open_from Outside 0 text.now }
{
    let mut quotes = Quotes::Outside;
    for (at, byte) in text.iter().enumerate() {
        quotes = quotes.behind(at, *byte);
    }
    quotes.opened()
}

/// The second dot outside quotes.
#[tactic(auto, using(crate::proofs::Steps::dots_more, crate::proofs::Steps::dots_none))]
fn second_dot(text: &[u8]) -> Option<usize>
    ensures { result ≡ second_dot_from Outside false 0 text.now }
{
    let mut quotes = Quotes::Outside;
    let mut dotted = false;
    for (at, byte) in text.iter().enumerate() {
        if let Some(Mark::Dot) = quotes.mark(*byte) {
            if dotted {
                return Some(at);
            }
            dotted = true;
        }
        quotes = quotes.behind(at, *byte);
    }
    None
}

/// Whether some part has no character.
#[tactic(auto, using(crate::proofs::Steps::marks_more, crate::proofs::Steps::marks_none))]
fn has_empty_part(text: &[u8]) -> bool
    ensures { result ≡ has_empty true (marks_from Outside 0 text.now) }
{
    let mut quotes = Quotes::Outside;
    let mut empty = true;
    for (at, byte) in text.iter().enumerate() {
        match quotes.mark(*byte) {
            Some(Mark::Dot) if empty => return true,
            Some(Mark::Dot) => empty = true,
            Some(Mark::Atom(_)) => empty = false,
            None => {}
        }
        quotes = quotes.behind(at, *byte);
    }
    empty
}

/// Why a text is no pattern: the first of `Unclosed`, `TooManyDots` and `Empty` that is due, and None exactly where
/// none is. It takes no memory.
#[tactic(auto, unfolding(crate::specs::Reading::fault_of))]
pub fn pattern_fault(text: &[u8]) -> Option<PatternFault>
    ensures { result ≡ fault_of text.now }
{
    if let Some(at) = open_quote(text) {
        return Some(PatternFault::Unclosed(at));
    }
    if let Some(at) = second_dot(text) {
        return Some(PatternFault::TooManyDots(at));
    }
    if has_empty_part(text) {
        Some(PatternFault::Empty)
    } else {
        None
    }
}

/// The parts of a text.
#[tactic(auto, using(crate::proofs::Steps::marks_more, crate::proofs::Steps::marks_none))]
fn parts(alloc: Global, text: &[u8]) -> Result<Pattern, AllocError>
    ensures { IfOk result (λ p. p ≡ parts_from None [] (marks_from Outside 0 text.now)) }
{
    let mut quotes = Quotes::Outside;
    let mut schema = None;
    let mut name = Part::new(alloc);
    for (at, byte) in text.iter().enumerate() {
        match quotes.mark(*byte) {
            Some(Mark::Dot) => schema = Some(mem::replace(&mut name, Part::new(alloc))),
            Some(Mark::Atom(atom)) => name.push(atom)?,
            None => {}
        }
        quotes = quotes.behind(at, *byte);
    }
    Ok(Pattern::from_parts(schema, name))
}

/// The pattern that a text is. The first dot outside quotes separates the schema from the name. Outside quotes A to Z
/// are made small, `*` stands for any characters, also none, and `?` for one. Inside quotes each byte is itself, and
/// two quotes are one.
///
/// `Fault` comes exactly where `pattern_fault` gives that fault, `Memory` where there is none for the pattern.
/// <https://www.postgresql.org/docs/16/app-psql.html#APP-PSQL-PATTERNS>
#[tactic(auto, unfolding(crate::specs::Reading::pattern_of))]
pub fn pattern_read(alloc: Global, text: &[u8]) -> Result<Pattern, PatternReadError>
    ensures { Gives result (pattern_of text.now) }
{
    if let Some(fault) = pattern_fault(text) {
        return Err(PatternReadError::Fault(fault));
    }
    Ok(parts(alloc, text)?)
}

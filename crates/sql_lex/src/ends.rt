//! Where a run, a quoted text, a comment or a number ends.

ghost use Rattle.std.specs.Prelude.{◌≡◌, ◌<◌, ◌≤◌, true, false, length, drop, IfSome};
ghost use Rattle.std.specs.List.{prefix_len};
ghost use Rattle.sql_lex.specs.Bytes.{is_blank, is_digit, in_word, in_line};
ghost use Rattle.sql_lex.specs.Ends.{run_end, quote_end, escape_end, comment_end, fraction_end, number_end};

use crate::bytes::{in_word, is_blank, is_digit, stands};
use memchr::{memchr, memchr2};

/// How many bytes of white space the text begins with.
fn blanks_len(text: &[u8]) -> usize
    ensures len { result ≡ prefix_len is_blank text.now }
    ensures high { result ≤ length text.now }
{
    text.iter().take_while(|b| is_blank(**b)).count()
}

/// How many bytes the text begins with that a word can go on with.
fn word_len(text: &[u8]) -> usize
    ensures len { result ≡ prefix_len in_word text.now }
    ensures high { result ≤ length text.now }
{
    text.iter().take_while(|b| in_word(**b)).count()
}

/// How many digits the text begins with.
fn digits_len(text: &[u8]) -> usize
    ensures len { result ≡ prefix_len is_digit text.now }
    ensures high { result ≤ length text.now }
{
    text.iter().take_while(|b| is_digit(**b)).count()
}

/// How many bytes the text has before a line feed.
fn line_len(text: &[u8]) -> usize
    ensures len { result ≡ prefix_len in_line text.now }
    ensures high { result ≤ length text.now }
{
    memchr(b'\n', text).unwrap_or(text.len())
}

/// The end of a run of white space.
#[tactic(auto, using(crate::proofs::Runs::run_of_rest))]
pub fn blanks_end(text: &[u8], at: usize) -> usize
    requires { at ≤ length text.now }
    ensures end { result ≡ run_end is_blank at (drop at text.now) }
    ensures low { at ≤ result }
    ensures high { result ≤ length text.now }
{
    at + blanks_len(&text[at..])
}

/// The end of a word.
#[tactic(auto, using(crate::proofs::Runs::run_of_rest))]
pub fn word_end(text: &[u8], at: usize) -> usize
    requires { at ≤ length text.now }
    ensures end { result ≡ run_end in_word at (drop at text.now) }
    ensures low { at ≤ result }
    ensures high { result ≤ length text.now }
{
    at + word_len(&text[at..])
}

/// The end of a run of digits.
#[tactic(auto, using(crate::proofs::Runs::run_of_rest))]
fn digits_end(text: &[u8], at: usize) -> usize
    requires { at ≤ length text.now }
    ensures end { result ≡ run_end is_digit at (drop at text.now) }
    ensures low { at ≤ result }
    ensures high { result ≤ length text.now }
{
    at + digits_len(&text[at..])
}

/// The end of a line, before its line feed.
#[tactic(auto, using(crate::proofs::Runs::run_of_rest))]
pub fn line_end(text: &[u8], at: usize) -> usize
    requires { at ≤ length text.now }
    ensures end { result ≡ run_end in_line at (drop at text.now) }
    ensures low { at ≤ result }
    ensures high { result ≤ length text.now }
{
    at + line_len(&text[at..])
}

/// The end of a number behind its digits, with a dot and further digits where they follow.
fn fraction_end(text: &[u8], at: usize) -> usize
    requires { at ≤ length text.now }
    ensures end { result ≡ fraction_end at (drop at text.now) }
    ensures low { at ≤ result }
    ensures high { result ≤ length text.now }
{
    if at + 1 < text.len() && text[at] == b'.' && is_digit(text[at + 1]) {
        digits_end(text, at + 2)
    } else {
        at
    }
}

/// The end of a number whose digits so far end at `at`.
pub fn number_end(text: &[u8], at: usize) -> usize
    requires { at ≤ length text.now }
    ensures end { result ≡ number_end at (drop at text.now) }
    ensures low { at ≤ result }
    ensures high { result ≤ length text.now }
{
    let whole = digits_end(text, at);
    fraction_end(text, whole)
}

/// The end of what stands in quotes, where they are open at `at`.
pub fn quote_end(text: &[u8], quote: u8, at: usize) -> Option<usize>
    requires { at ≤ length text.now }
    ensures end { result ≡ quote_end quote true at (drop at text.now) }
    ensures within { IfSome result (λ end. (at ≤ end) × (end ≤ length text.now)) }
{
    let mut at = at;
    'quotes: while let Some(len) = memchr(quote, &text[at..]) {
        let end = at + len + 1;
        if !stands(quote, text, end) {
            return Some(end);
        }
        at = end + 1;
    }
    None
}

/// The end of a literal with escapes, where its quotes are open at `at`.
pub fn escape_end(text: &[u8], at: usize) -> Option<usize>
    requires { at ≤ length text.now }
    ensures end { result ≡ escape_end false true at (drop at text.now) }
    ensures within { IfSome result (λ end. (at ≤ end) × (end ≤ length text.now)) }
{
    let mut at = at;
    'marks: while let Some(len) = memchr2(b'\'', b'\\', &text[at..]) {
        let next = at + len + 1;
        if text[at + len] == b'\'' {
            if !stands(b'\'', text, next) {
                return Some(next);
            }
            at = next + 1;
        } else {
            if next == text.len() {
                return None;
            }
            at = next + 1;
        }
    }
    None
}

/// The end of a comment that is open at `at`.
pub fn comment_end(text: &[u8], at: usize) -> Option<usize>
    requires { at ≤ length text.now }
    ensures end { result ≡ comment_end 1 0 at (drop at text.now) }
    ensures within { IfSome result (λ end. (at ≤ end) × (end ≤ length text.now)) }
{
    let mut at = at;
    let mut depth: usize = 1;
    'marks: while let Some(len) = memchr2(b'*', b'/', &text[at..]) {
        let mark = text[at + len];
        let next = at + len + 1;
        if mark == b'/' && stands(b'*', text, next) {
            depth += 1;
            at = next + 1;
        } else if mark == b'*' && stands(b'/', text, next) {
            if depth == 1 {
                return Some(next + 1);
            }
            depth -= 1;
            at = next + 1;
        } else {
            at = next;
        }
    }
    None
}

//! What a token stands for.

ghost use Rattle.std.specs.Prelude.{◌≡◌, ◌≤◌, ◌++◌, false, map, length, IfOk, OnOk};
ghost use Rattle.std.specs.Option.{option_map};
ghost use Rattle.std.specs.Char.{to_ascii_lowercase};
ghost use Rattle.std.specs.Str.{str_eq_ignore_ascii_case};
ghost use Rattle.sql_lex.specs.Meaning.{spelling, inside, undoubled, name_of, plain_of, literal_of, is_keyword_of};

use crate::bytes::stands;
use crate::token::{Token, TokenKind};
use memchr::memchr;
use std::alloc::{AllocError, Global};

/// The bytes of a token.
#[tactic(auto, unfolding(crate::specs::Meaning::spelling))]
fn spelling(text: &[u8], token: Token) -> &[u8]
    requires start { token.start ≤ token.end }
    requires end { token.end ≤ length text.now }
    ensures { result.now ≡ spelling text.now token }
{
    &text[token.start..token.end]
}

/// What stands between the quotes of a token.
#[tactic(auto, unfolding(crate::specs::Meaning::inside))]
fn inside(word: &[u8]) -> &[u8]
    ensures { result.now ≡ inside word.now }
{
    if word.len() < 2 {
        return &word[..0];
    }
    &word[1..word.len() - 1]
}

/// The bytes with A to Z made small.
fn small(alloc: Global, word: &[u8]) -> Result<Vec<u8>, AllocError>
    ensures { IfOk result (λ v. v.items ≡ map to_ascii_lowercase word.now) }
{
    word.iter().map(|b| b.to_ascii_lowercase()).collect(alloc)
}

/// The bytes with each doubled quote once.
fn undoubled(alloc: Global, quote: u8, text: &[u8]) -> Result<Vec<u8>, AllocError>
    ensures { IfOk result (λ v. v.items ≡ undoubled quote false text.now) }
{
    let mut out = Vec::new(alloc);
    let mut at = 0;
    'pieces: while let Some(len) = memchr(quote, &text[at..]) {
        let end = at + len + 1;
        out.extend_from_slice(&text[at..end])?;
        if stands(quote, text, end) {
            at = end + 1;
        } else {
            at = end;
        }
    }
    out.extend_from_slice(&text[at..])?;
    Ok(out)
}

/// The name that a token stands for, where it is a word or a quoted name, else None.
///
/// A word has A to Z made small. A quoted name is what stands between the quotes, with `""` for one; it may be empty,
/// hold the byte 0, and have any length. The error says that there was no memory for the name.
/// <https://www.postgresql.org/docs/16/sql-syntax-lexical.html#SQL-SYNTAX-IDENTIFIERS>
#[tactic(auto, unfolding(crate::specs::Meaning::name_of))]
pub fn token_name(alloc: Global, text: &[u8], token: Token) -> Result<Option<Vec<u8>>, AllocError>
    requires start { token.start ≤ token.end }
    requires end { token.end ≤ length text.now }
    ensures { IfOk result
        (λ name. option_map (λ v. v.items) name ≡ name_of token.kind (spelling text.now token)) }
{
    let word = spelling(text, token);
    match token.kind {
        TokenKind::Word => Ok(Some(small(alloc, word)?)),
        TokenKind::QuotedName => Ok(Some(undoubled(alloc, b'"', inside(word))?)),
        _ => Ok(None),
    }
}

/// The text of a literal that begins with its quote.
fn plain_text(alloc: Global, word: &[u8]) -> Result<Option<Vec<u8>>, AllocError>
    ensures { IfOk result (λ found. option_map (λ v. v.items) found ≡ plain_of word.now) }
{
    if stands(b'\'', word, 0) {
        Ok(Some(undoubled(alloc, b'\'', inside(word))?))
    } else {
        Ok(None)
    }
}

/// The text of a literal without escapes, with `''` for one quote, else None.
///
/// The error says that there was no memory for the text.
/// <https://www.postgresql.org/docs/16/sql-syntax-lexical.html#SQL-SYNTAX-CONSTANTS>
#[tactic(auto, unfolding(crate::specs::Meaning::literal_of))]
pub fn literal_text(alloc: Global, text: &[u8], token: Token) -> Result<Option<Vec<u8>>, AllocError>
    requires start { token.start ≤ token.end }
    requires end { token.end ≤ length text.now }
    ensures { IfOk result
        (λ found. option_map (λ v. v.items) found ≡ literal_of token.kind (spelling text.now token)) }
{
    let word = spelling(text, token);
    match token.kind {
        TokenKind::Literal => plain_text(alloc, word),
        _ => Ok(None),
    }
}

/// Whether two texts are alike but for the case of ASCII letters.
fn same_letters(a: &[u8], b: &[u8]) -> bool
    ensures { result ≡ str_eq_ignore_ascii_case a.now b.now }
{
    a.eq_ignore_ascii_case(b)
}

/// Whether a token is the key word, in small letters or not. It takes no memory.
#[tactic(auto, unfolding(crate::specs::Meaning::is_keyword_of))]
pub fn is_keyword(text: &[u8], token: Token, key: &str) -> bool
    requires start { token.start ≤ token.end }
    requires end { token.end ≤ length text.now }
    ensures { result ≡ is_keyword_of token.kind (spelling text.now token) key.now }
{
    match token.kind {
        TokenKind::Word => same_letters(spelling(text, token), key.as_bytes()),
        _ => false,
    }
}

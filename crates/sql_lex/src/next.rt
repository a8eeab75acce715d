//! The tokens of a text, one after another.

ghost use Rattle.std.specs.Prelude.{◌≡◌, ◌≤◌, All, IfOk, length};
ghost use Rattle.sql_lex.specs.Next.{next_token_of, tokens_of, Gives, LiesBehind, LiesIn};

use crate::fault::{LexFault, TokensError};
use crate::piece::piece_at;
use crate::token::Token;
use std::alloc::Global;

/// The first token at or after a place of a text, read as though a token could begin there. None where only white
/// space and comments are left. A backslash begins a line by the whole text, not by the place.
///
/// The fault is the first from the place on: `Unclosed` where quotes or a comment open that are never closed, with
/// the place of the opening, else `BadByte` where no token begins, or where a token or a comment isn't UTF-8.
///
/// The tokens are those of PostgreSQL's lexical structure (<https://www.postgresql.org/docs/16/sql-syntax-lexical.html>),
/// as far as dumps use it.
pub fn next_token(text: &[u8], at: usize) -> Result<Option<Token>, LexFault>
    requires { at ≤ length text.now }
    ensures exact { result ≡ next_token_of text.now at }
    ensures within { LiesBehind text.now at result }
{
    let mut at = at;
    while at < text.len() {
        let piece = piece_at(text, at)?;
        if let Some(kind) = piece.kind {
            return Ok(Some(Token {
                kind,
                start: at,
                end: piece.end,
            }));
        }
        at = piece.end;
    }
    Ok(None)
}

/// The tokens of a whole text: those of calls of `next_token`, from 0 and then each from the last one's end.
///
/// `Lex` is the first fault that such a call meets, `Memory` comes where there is none for the list.
pub fn tokens(alloc: Global, text: &[u8]) -> Result<Vec<Token>, TokensError>
    ensures exact { Gives (λ v. v.items) result (tokens_of text.now) }
    ensures within { IfOk result (λ v. All (LiesIn text.now) v.items) }
{
    let mut tokens = Vec::new(alloc);
    let mut at = 0;
    while let Some(token) = next_token(text, at)? {
        tokens.push(token)?;
        at = token.end;
    }
    Ok(tokens)
}

//! What stands at a place of a text.

ghost use Rattle.std.specs.Prelude.{◌≡◌, ◌+◌, ◌<◌, ◌≤◌, ◌==◌, length, drop, slice_index, IfOk};
ghost use Rattle.std.specs.Str.{is_utf8};
ghost use Rattle.sql_lex.specs.Bytes.{next_is};
ghost use Rattle.sql_lex.specs.Pieces.{begins_line, token, gap, closed, begun, piece_at};

use crate::bytes::{begins_word, is_blank, is_digit, is_sign, marks_escapes, stands};
use crate::ends::{blanks_end, comment_end, escape_end, line_end, number_end, quote_end, word_end};
use crate::fault::LexFault;
use crate::token::TokenKind;

/// A token, or white space or a comment, which have no kind, up to its end.
#[derive(Clone, Copy)]
pub struct Piece {
    pub kind: Option<TokenKind>,
    pub end: usize,
}

/// Whether the place is a line's first.
#[tactic(auto, unfolding(crate::specs::Pieces::begins_line))]
fn begins_line(text: &[u8], at: usize) -> bool
    requires { at ≤ length text.now }
    ensures { result ≡ begins_line text.now at }
{
    at == 0 || text[at - 1] == b'\n'
}

fn token(kind: TokenKind, end: usize) -> Result<Piece, LexFault>
    ensures { result ≡ token kind end }
{
    Ok(Piece {
        kind: Some(kind),
        end,
    })
}

fn gap(end: usize) -> Result<Piece, LexFault>
    ensures { result ≡ gap end }
{
    Ok(Piece { kind: None, end })
}

/// What was opened at a place, up to its end where it has one.
#[tactic(auto, unfolding(crate::specs::Pieces::closed))]
fn closed(kind: Option<TokenKind>, at: usize, end: Option<usize>) -> Result<Piece, LexFault>
    ensures { result ≡ closed kind at end }
{
    match end {
        Some(end) => Ok(Piece { kind, end }),
        None => Err(LexFault::Unclosed(at)),
    }
}

/// What begins at the place.
#[tactic(auto, unfolding(crate::specs::Pieces::begun))]
fn begun(text: &[u8], at: usize) -> Result<Piece, LexFault>
    requires { at < length text.now }
    ensures { result
        ≡ begun (begins_line text.now at) at (slice_index text.now at) (drop (at + 1) text.now) }
{
    let byte = text[at];
    let next = at + 1;
    if is_blank(byte) {
        gap(blanks_end(text, next))
    } else if marks_escapes(byte) && stands(b'\'', text, next) {
        closed(Some(TokenKind::Literal), at, escape_end(text, next + 1))
    } else if begins_word(byte) {
        token(TokenKind::Word, word_end(text, next))
    } else if is_digit(byte) {
        token(TokenKind::Number, number_end(text, next))
    } else if byte == b'"' {
        closed(Some(TokenKind::QuotedName), at, quote_end(text, b'"', next))
    } else if byte == b'\'' {
        closed(Some(TokenKind::Literal), at, quote_end(text, b'\'', next))
    } else if byte == b'-' && stands(b'-', text, next) {
        gap(line_end(text, next))
    } else if byte == b'/' && stands(b'*', text, next) {
        closed(None, at, comment_end(text, next + 1))
    } else if byte == b'\\' && begins_line(text, at) {
        token(TokenKind::MetaLine, line_end(text, next))
    } else if is_sign(byte) {
        token(TokenKind::Sign(byte), next)
    } else {
        Err(LexFault::BadByte(at))
    }
}

/// Whether the bytes are UTF-8.
fn is_utf8(bytes: &[u8]) -> bool
    ensures { result ≡ is_utf8 bytes.now }
{
    str::from_utf8(bytes).is_ok()
}

/// What stands at the place.
#[tactic(auto, using(crate::proofs::Bounds::begun_ok), unfolding(crate::specs::Pieces::piece_at, crate::specs::Pieces::in_utf8))]
pub fn piece_at(text: &[u8], at: usize) -> Result<Piece, LexFault>
    requires { at < length text.now }
    ensures exact { result ≡ piece_at text.now at }
    ensures end { IfOk result (λ piece. (at < piece.end) × (piece.end ≤ length text.now)) }
{
    let piece = begun(text, at)?;
    if is_utf8(&text[at..piece.end]) {
        Ok(piece)
    } else {
        Err(LexFault::BadByte(at))
    }
}

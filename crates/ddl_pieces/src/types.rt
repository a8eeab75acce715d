//! Types of columns and domains.
ghost use Rattle.std.specs.Prelude.{◌≡◌, ◌≢◌, ◌≤◌, ◌+◌, length, drop, true, is_ok, IfOk, IsTrue, Some, if◌then◌else◌};
ghost use Rattle.std.specs.List.{list_any};
ghost use Rattle.std.specs.Option.{ok_or};
ghost use Rattle.ddl_parts.specs.Lexemes.{is_word, is_sign, starts};
ghost use Rattle.ddl_parts.specs.Leaves.{name_value};
ghost use Rattle.ddl_parts.specs.Parts.{scan};
ghost use Rattle.ddl_parts.specs.Pieces.{lexeme_of, lexemes, are_joined, are_sound, GivesPart, GivesRun, ended};
ghost use Rattle.ddl_parts.specs.declared.types.TypeSpot.TheVariants.{Begin, FirstWord, Schema, Dotted, Counted, Behind};
ghost use Rattle.ddl_parts.specs.Types.{stop_words, is_word_kind, is_number_kind, is_type_word, is_number, if_name, is_long_by, only_if, more_words, type_step, type_long, type_done, typing, type_part};

use crate::pieces::{halt, is_sign_at, is_sign_kind, name_at, name_value, piece_at};
use crate::runs::text_between;
use cat_model::{QName, TypeName};
use copy_text::Name;
use ddl_parts::{Halt, Parsed, Piece, ReadError, TypeSpot};
use sql_lex::{TokenKind, is_keyword};
use std::alloc::{AllocError, Global};

/// Whether the token is a word that follows a type and is none of its words.
#[tactic(auto, unfolding(ddl_parts::specs::Lexemes::is_word))]
fn is_stop_word(text: &[u8], piece: Piece) -> bool
    requires low { piece.token.start ≤ piece.token.end }
    requires high { piece.token.end ≤ length text.now }
    ensures { result ≡ list_any (λ w. is_word w (lexeme_of text.now piece)) stop_words }
{
    is_keyword(text, piece.token, "check")
        || is_keyword(text, piece.token, "collate")
        || is_keyword(text, piece.token, "constraint")
        || is_keyword(text, piece.token, "default")
        || is_keyword(text, piece.token, "generated")
        || is_keyword(text, piece.token, "not")
        || is_keyword(text, piece.token, "null")
        || is_keyword(text, piece.token, "primary")
        || is_keyword(text, piece.token, "references")
        || is_keyword(text, piece.token, "unique")
}

/// Whether the token is a bare word.
fn is_word_kind(kind: TokenKind) -> bool
    ensures { result ≡ is_word_kind kind }
{
    matches!(kind, TokenKind::Word)
}

/// Whether the token is one of a type's words.
#[tactic(auto, unfolding(ddl_parts::specs::Types::is_type_word))]
fn is_type_word(text: &[u8], piece: Piece) -> bool
    requires low { piece.token.start ≤ piece.token.end }
    requires high { piece.token.end ≤ length text.now }
    ensures { result ≡ is_type_word (lexeme_of text.now piece) }
{
    is_word_kind(piece.token.kind) && !is_stop_word(text, piece)
}

/// Whether the token is a number.
fn is_number_kind(kind: TokenKind) -> bool
    ensures { result ≡ is_number_kind kind }
{
    matches!(kind, TokenKind::Number)
}

/// The spot behind a token that goes on, or None.
fn only_if(goes: bool, spot: TypeSpot) -> Option<TypeSpot>
    ensures { result ≡ only_if goes spot }
{
    if goes { Some(spot) } else { None }
}

/// The spot behind a token that has to be a name; the error says whether it is one but for its length.
fn if_name(name: Result<Name, bool>, spot: TypeSpot) -> Result<TypeSpot, bool>
    ensures { result ≡ ok_or (if_name name spot) (is_long_by name) }
{
    name?;
    Ok(spot)
}

/// The spot behind the first token.
fn behind_first(words: bool, name: Result<Name, bool>) -> Result<TypeSpot, bool>
    ensures { result ≡ ok_or (if words then Some (FirstWord (is_ok name)) else if_name name Schema) (is_long_by name) }
{
    if words {
        return Ok(TypeSpot::FirstWord(name.is_ok()));
    }
    if_name(name, TypeSpot::Schema)
}

/// The spot behind a token that follows a type's words.
#[tactic(auto, unfolding(ddl_parts::specs::Lexemes::is_sign))]
fn more_words(text: &[u8], piece: Piece) -> Option<TypeSpot>
    requires low { piece.token.start ≤ piece.token.end }
    requires high { piece.token.end ≤ length text.now }
    ensures { result ≡ more_words (lexeme_of text.now piece) }
{
    if is_type_word(text, piece) {
        return Some(TypeSpot::Words);
    }
    if is_sign_kind(piece.token.kind, b'(') {
        return Some(TypeSpot::Opened);
    }
    only_if(is_sign_kind(piece.token.kind, b'['), TypeSpot::Array)
}

/// The spot behind a token, where no name is due: None where the type ends before it.
#[tactic(auto, unfolding(ddl_parts::specs::Types::type_step, ddl_parts::specs::Types::is_number, ddl_parts::specs::Lexemes::is_sign))]
fn step_on(text: &[u8], piece: Piece, spot: TypeSpot) -> Option<TypeSpot>
    requires low { piece.token.start ≤ piece.token.end }
    requires high { piece.token.end ≤ length text.now }
    requires begun { spot ≢ Begin }
    requires undotted { spot ≢ Dotted }
    ensures { result ≡ type_step spot (lexeme_of text.now piece) }
{
    use TypeSpot::*;

    let kind = piece.token.kind;
    match spot {
        FirstWord(short) if is_sign_kind(kind, b'.') => only_if(short, Dotted),
        FirstWord(_) | Words => more_words(text, piece),
        Schema => only_if(is_sign_kind(kind, b'.'), Dotted),
        Opened | Further => only_if(is_number_kind(kind), Counted),
        Counted if is_sign_kind(kind, b',') => Some(Further),
        Counted => only_if(is_sign_kind(kind, b')'), Behind),
        Behind if is_type_word(text, piece) => Some(Behind),
        Behind => only_if(is_sign_kind(kind, b'['), Array),
        Array => only_if(is_sign_kind(kind, b']'), Ended),
        Begin | Dotted | Path | Ended => None,
    }
}

/// The spot behind a token. The error is where the type ends before it: whether it is a name there but for its length.
#[tactic(auto, unfolding(ddl_parts::specs::Types::type_step, ddl_parts::specs::Types::type_long))]
fn step(
    alloc: Global,
    text: &[u8],
    piece: Piece,
    spot: TypeSpot,
) -> Result<Result<TypeSpot, bool>, AllocError>
    requires low { piece.token.start ≤ piece.token.end }
    requires high { piece.token.end ≤ length text.now }
    ensures { IfOk result (λ next. next ≡ ok_or (type_step spot (lexeme_of text.now piece)) (type_long spot (lexeme_of text.now piece))) }
{
    match spot {
        TypeSpot::Begin => {
            let name = name_value(alloc, text, piece)?;
            Ok(behind_first(is_type_word(text, piece), name))
        }
        TypeSpot::Dotted => Ok(if_name(name_value(alloc, text, piece)?, TypeSpot::Path)),
        _ => Ok(step_on(text, piece, spot).ok_or(false)),
    }
}

/// Whether a type may end at a spot.
#[tactic(auto, unfolding(ddl_parts::specs::Types::type_done))]
fn is_done(spot: TypeSpot) -> bool
    ensures { result ≡ type_done spot }
{
    matches!(
        spot,
        TypeSpot::FirstWord(_)
            | TypeSpot::Path
            | TypeSpot::Words
            | TypeSpot::Behind
            | TypeSpot::Ended
    )
}

/// The end of a type, where it may end; `long` says that the next token is a name but for its length.
fn end_of_type(spot: TypeSpot, long: bool, at: usize) -> Result<usize, ReadError>
    ensures { result ≡ ended (type_done spot) long at }
{
    if is_done(spot) {
        return Ok(at);
    }
    Err(ReadError::Halted(Halt { long, at }))
}

/// The end of the type from a place on.
#[tactic(auto, using(crate::proofs::Scanning::at_end, crate::proofs::Scanning::none_left), unfolding(ddl_parts::specs::Types::type_done))]
fn type_end(alloc: Global, text: &[u8], pieces: &[Piece], from: usize) -> Result<usize, ReadError>
    requires { are_joined (length text.now) pieces.now ≡ true }
    ensures { GivesRun (lexemes text.now pieces.now) from result (scan typing typing.start (drop from (lexemes text.now pieces.now))) }
{
    if from > pieces.len() {
        return halt(from);
    }
    let mut spot = TypeSpot::Begin;
    let mut at = from;
    'tokens: loop {
        let Some(piece) = piece_at(text, pieces, at) else {
            return end_of_type(spot, false, at);
        };
        match step(alloc, text, piece, spot)? {
            Ok(next) => spot = next,
            Err(long) => return end_of_type(spot, long, at),
        }
        at += 1;
    }
}

/// Whether a type's tokens are those of a qualified name.
fn is_path(text: &[u8], pieces: &[Piece], from: usize, end: usize) -> bool
    requires joined { are_joined (length text.now) pieces.now ≡ true }
    requires low { from ≤ end }
    requires high { end ≤ length pieces.now }
    ensures long { IsTrue result → from + 3 ≤ end }
    ensures exact { from + 3 ≤ end → result ≡ starts (is_sign 46) (drop (from + 1) (lexemes text.now pieces.now)) }
{
    end - from >= 3 && is_sign_at(text, pieces, from + 1, b'.')
}

/// The type at a place, and the place behind it.
#[tactic(auto, unfolding(ddl_parts::specs::Types::type_part))]
pub(crate) fn type_at(alloc: Global, text: &[u8], pieces: &[Piece], at: usize) -> Parsed<TypeName>
    requires joined { are_joined (length text.now) pieces.now ≡ true }
    requires sound { are_sound text.now pieces.now ≡ true }
    ensures { GivesPart (lexemes text.now pieces.now) (λ t. t) result (type_part.read (drop at (lexemes text.now pieces.now))) }
{
    let end = type_end(alloc, text, pieces, at)?;
    if is_path(text, pieces, at, end) {
        let (schema, _) = name_at(alloc, text, pieces, at)?;
        let (name, _) = name_at(alloc, text, pieces, at + 2)?;
        return Ok((TypeName::Path(QName { schema, name }), end));
    }
    let words = text_between(alloc, text, pieces, at, end)?;
    Ok((TypeName::Words(words), end))
}

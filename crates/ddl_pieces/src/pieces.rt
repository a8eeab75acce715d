//! The tokens of a statement.
ghost use Rattle.std.specs.Prelude.{◌≡◌, ◌≤◌, ◌<◌, ◌+◌, ◌-◌, ◌∷◌, [], List, length, take, drop, false, true, Err, IfOk, IfSome, MatchOption, option_map, ◌||◌, ◌==◌};
ghost use Rattle.std.specs.List.{list_any};
ghost use Rattle.ddl_parts.specs.Lexemes.{Lexeme, source, is_word, is_sign, is_sign_kind, starts, start_of};
ghost use Rattle.ddl_parts.specs.Leaves.{name, literal, name_in, name_value, text_in, is_name, is_name_kind, is_literal, is_literal_kind, number_first};
ghost use Rattle.ddl_parts.specs.Parts.{mark};
ghost use Rattle.ddl_parts.specs.Expressions.{expression, default_text, default_and_null};
ghost use Rattle.ddl_parts.specs.Types.{type_part};
ghost use Rattle.ddl_parts.specs.Pieces.{lexeme_of, lexemes, are_joined, are_sound, GivesPlace, GivesPart, IsBehind};
ghost use Rattle.ddl_parts.specs.declared.fault.ReadError.TheVariants.{Halted};

use crate::defaults::default_and_null_at;
use crate::runs::{run_at, text_between};
use crate::types::type_at;
use cat_model::TypeName;
use copy_text::{Name, Text};
use ddl_parts::{Halt, Parsed, Piece, ReadError};
use sql_lex::{TokenKind, is_keyword, literal_text, token_name};
use std::alloc::{AllocError, Global};
use std::marker::Model;

/// The most bytes of a name: PostgreSQL's NAMEDATALEN less one.
const LONGEST_NAME: usize = 63;

/// The tokens of a statement in a text. A contract sees each with its bytes.
#[derive(Drop)]
pub struct Pieces<'a> {
    text: &'a [u8],
    pieces: Vec<Piece>,
}

impl<'a> Model for Pieces<'a> {
    ghost use Rattle.std.specs.Prelude.{◌≡◌, List, length, true};
    ghost use Rattle.ddl_parts.specs.Lexemes.{Lexeme};
    ghost use Rattle.ddl_parts.specs.Pieces.{lexemes, AreTokens};

    ghost Value = { List Lexeme };

    ghost view = { λ p. lexemes p.text.now p.pieces.items };

    ghost invariant = { λ p. AreTokens p.text.now p.pieces.items };
}

impl<'a> Pieces<'a> {
    /// The tokens of a text that were collected.
    pub fn new(text: &'a [u8], pieces: Vec<Piece>) -> Pieces<'a>
        requires joined { are_joined (length text.now) pieces.items ≡ true }
        requires sound { are_sound text.now pieces.items ≡ true }
        ensures { result ≡ lexemes text.now pieces.items }
    {
        Pieces { text, pieces }
    }

    /// The place of a token's first byte in the text.
    pub fn start(&self, at: usize) -> Option<usize>
        ensures { result ≡ start_of (drop at self.now) }
    {
        let piece = piece_at(self.text, &self.pieces, at)?;
        Some(piece.token.start)
    }

    /// How many there are.
    pub fn len(&self) -> usize
        ensures { result ≡ length self.now }
    {
        self.pieces.len()
    }

    /// The key word at a place, in letters of any case, and the place behind it.
    #[tactic(auto, unfolding(ddl_parts::specs::Lexemes::is_word))]
    pub fn word(&self, at: usize, key: &str) -> Result<usize, ReadError>
        ensures { GivesPlace self.now result ((mark (is_word key.now)).read (drop at self.now)) }
    {
        match piece_at(self.text, &self.pieces, at) {
            Some(piece) if is_keyword(self.text, piece.token, key) => Ok(at + 1),
            _ => halt(at),
        }
    }

    /// The token of this one byte at a place, and the place behind it.
    #[tactic(auto, unfolding(ddl_parts::specs::Lexemes::is_sign))]
    pub fn sign(&self, at: usize, byte: u8) -> Result<usize, ReadError>
        ensures { GivesPlace self.now result ((mark (is_sign byte)).read (drop at self.now)) }
    {
        match piece_at(self.text, &self.pieces, at) {
            Some(piece) if is_sign_kind(piece.token.kind, byte) => Ok(at + 1),
            _ => halt(at),
        }
    }

    /// The place behind the key word, in letters of any case, where it stands at a place.
    #[tactic(auto, unfolding(ddl_parts::specs::Lexemes::is_word))]
    pub fn after_word(&self, at: usize, key: &str) -> Option<usize>
        ensures { IsBehind self.now (is_word key.now) at result }
    {
        match piece_at(self.text, &self.pieces, at) {
            Some(piece) if is_keyword(self.text, piece.token, key) => Some(at + 1),
            _ => None,
        }
    }

    /// The place behind the token of this one byte, where it stands at a place.
    #[tactic(auto, unfolding(ddl_parts::specs::Lexemes::is_sign))]
    pub fn after_sign(&self, at: usize, byte: u8) -> Option<usize>
        ensures { IsBehind self.now (is_sign byte) at result }
    {
        match piece_at(self.text, &self.pieces, at) {
            Some(piece) if is_sign_kind(piece.token.kind, byte) => Some(at + 1),
            _ => None,
        }
    }

    /// Whether the key word stands at a place.
    pub fn is_word(&self, at: usize, key: &str) -> bool
        ensures { result ≡ starts (is_word key.now) (drop at self.now) }
    {
        is_word_at(self.text, &self.pieces, at, key)
    }

    /// Whether the token of this one byte stands at a place.
    pub fn is_sign(&self, at: usize, byte: u8) -> bool
        ensures { result ≡ starts (is_sign byte) (drop at self.now) }
    {
        is_sign_at(self.text, &self.pieces, at, byte)
    }

    /// Whether a word or a quoted name stands at a place.
    #[tactic(auto, unfolding(ddl_parts::specs::Leaves::is_name))]
    pub fn is_name(&self, at: usize) -> bool
        ensures { result ≡ starts is_name (drop at self.now) }
    {
        let piece = piece_at(self.text, &self.pieces, at);
        matches!(piece, Some(piece) if is_name_kind(piece.token.kind))
    }

    /// Whether a literal stands at a place.
    #[tactic(auto, unfolding(ddl_parts::specs::Leaves::is_literal))]
    pub fn is_literal(&self, at: usize) -> bool
        ensures { result ≡ starts is_literal (drop at self.now) }
    {
        let piece = piece_at(self.text, &self.pieces, at);
        matches!(piece, Some(piece) if is_literal_kind(piece.token.kind))
    }

    /// The name at a place, and the place behind it.
    pub fn name(&self, alloc: Global, at: usize) -> Parsed<Name>
        ensures { GivesPart self.now (λ n. n) result (name.read (drop at self.now)) }
    {
        name_at(alloc, self.text, &self.pieces, at)
    }

    /// The text of the literal at a place, and the place behind it.
    #[tactic(auto, unfolding(ddl_parts::specs::Leaves::literal_value))]
    pub fn literal(&self, alloc: Global, at: usize) -> Parsed<Text>
        ensures { GivesPart self.now (λ t. t) result (literal.read (drop at self.now)) }
    {
        let Some(piece) = piece_at(self.text, &self.pieces, at) else {
            return halt(at);
        };
        match text_in(literal_text(alloc, self.text, piece.token)?) {
            Ok(literal) => Ok((literal, at + 1)),
            Err(long) => Err(ReadError::Halted(Halt { long, at })),
        }
    }

    /// The text of the expression at a place, and the place behind it.
    #[tactic(auto, unfolding(ddl_parts::specs::Expressions::expression))]
    pub fn expression(&self, alloc: Global, at: usize) -> Parsed<Text>
        ensures { GivesPart self.now (λ t. t) result (expression.read (drop at self.now)) }
    {
        run_at(alloc, self.text, &self.pieces, at, false, false)
    }

    /// The text of the default at a place, which NOT NULL may not follow, and the place behind it.
    #[tactic(auto, unfolding(ddl_parts::specs::Expressions::default_text))]
    pub fn default_text(&self, alloc: Global, at: usize) -> Parsed<Text>
        ensures { GivesPart self.now (λ t. t) result (default_text.read (drop at self.now)) }
    {
        run_at(alloc, self.text, &self.pieces, at, true, false)
    }

    /// The text of the default at a place, whether NOT NULL follows it, and the place behind both.
    pub fn default_and_null(&self, alloc: Global, at: usize) -> Parsed<(Text, bool)>
        ensures { GivesPart self.now (λ x. (x.0, x.1)) result (default_and_null.read (drop at self.now)) }
    {
        default_and_null_at(alloc, self.text, &self.pieces, at)
    }

    /// The spelling of the number at a place.
    #[tactic(auto, unfolding(ddl_parts::specs::Lexemes::is_word, sql_lex::specs::Meaning::spelling))]
    pub fn number(&self, at: usize) -> Option<&[u8]>
        ensures exact { option_map (λ w. w.now) result ≡ number_first (drop at self.now) }
        ensures some { IfSome result (λ w. 0 < length w.now) }
    {
        let piece = piece_at(self.text, &self.pieces, at)?;
        match piece.token.kind {
            TokenKind::Number => Some(&self.text[piece.token.start..piece.token.end]),
            _ => None,
        }
    }

    /// The text of the tokens from a place up to another.
    pub fn source(&self, alloc: Global, from: usize, end: usize) -> Result<Text, AllocError>
        requires low { from ≤ end }
        requires high { end ≤ length self.now }
        ensures { IfOk result (λ t. t ≡ source (take (end - from) (drop from self.now))) }
    {
        text_between(alloc, self.text, &self.pieces, from, end)
    }

    /// The type at a place, and the place behind it.
    pub fn type_name(&self, alloc: Global, at: usize) -> Parsed<TypeName>
        ensures { GivesPart self.now (λ t. t) result (type_part.read (drop at self.now)) }
    {
        type_at(alloc, self.text, &self.pieces, at)
    }
}

/// The token at a place.
#[tactic(auto, using(crate::proofs::Joined::read_at, crate::proofs::Joined::lies_at))]
pub(crate) fn piece_at(text: &[u8], pieces: &[Piece], at: usize) -> Option<Piece>
    requires { are_joined (length text.now) pieces.now ≡ true }
    ensures read { MatchOption result (drop at (lexemes text.now pieces.now) ≡ [])
        (λ p. (drop at (lexemes text.now pieces.now) ≡ lexeme_of text.now p ∷ drop (at + 1) (lexemes text.now pieces.now)) × (at < length pieces.now)) }
    ensures lies { IfSome result (λ p. (p.from ≤ p.token.start) × (p.token.start < p.token.end) × (p.token.end ≤ length text.now)) }
{
    if at < pieces.len() {
        Some(pieces[at])
    } else {
        None
    }
}

/// Reading stops at a place, with whose token nothing goes on.
pub fn halt<T>(at: usize) -> Result<T, ReadError>
    ensures { result ≡ Err (Halted (record { long = false; at = at })) }
{
    Err(ReadError::Halted(Halt { long: false, at }))
}

#[tactic(auto, unfolding(ddl_parts::specs::Lexemes::is_word))]
pub(crate) fn is_word_at(text: &[u8], pieces: &[Piece], at: usize, key: &str) -> bool
    requires { are_joined (length text.now) pieces.now ≡ true }
    ensures { result ≡ starts (is_word key.now) (drop at (lexemes text.now pieces.now)) }
{
    matches!(piece_at(text, pieces, at), Some(piece) if is_keyword(text, piece.token, key))
}

/// Whether a token of this kind is this byte.
pub fn is_sign_kind(kind: TokenKind, byte: u8) -> bool
    ensures { result ≡ is_sign_kind byte kind }
{
    matches!(kind, TokenKind::Sign(sign) if byte == sign)
}

#[tactic(auto, unfolding(ddl_parts::specs::Lexemes::is_sign))]
pub(crate) fn is_sign_at(text: &[u8], pieces: &[Piece], at: usize, byte: u8) -> bool
    requires { are_joined (length text.now) pieces.now ≡ true }
    ensures { result ≡ starts (is_sign byte) (drop at (lexemes text.now pieces.now)) }
{
    matches!(piece_at(text, pieces, at), Some(piece) if is_sign_kind(piece.token.kind, byte))
}

/// Whether tokens of this kind stand for names.
pub fn is_name_kind(kind: TokenKind) -> bool
    ensures { result ≡ is_name_kind kind }
{
    matches!(kind, TokenKind::Word | TokenKind::QuotedName)
}

/// Whether tokens of this kind are literals.
fn is_literal_kind(kind: TokenKind) -> bool
    ensures { result ≡ is_literal_kind kind }
{
    matches!(kind, TokenKind::Literal)
}

/// The name that a token stands for; the error says whether it is one but for its length.
#[tactic(auto, unfolding(ddl_parts::specs::Leaves::name_value))]
pub(crate) fn name_value(
    alloc: Global,
    text: &[u8],
    piece: Piece,
) -> Result<Result<Name, bool>, AllocError>
    requires low { piece.token.start ≤ piece.token.end }
    requires high { piece.token.end ≤ length text.now }
    ensures { IfOk result (λ name. name ≡ name_value (lexeme_of text.now piece)) }
{
    Ok(name_in(token_name(alloc, text, piece.token)?))
}

pub(crate) fn name_at(alloc: Global, text: &[u8], pieces: &[Piece], at: usize) -> Parsed<Name>
    requires { are_joined (length text.now) pieces.now ≡ true }
    ensures { GivesPart (lexemes text.now pieces.now) (λ n. n) result (name.read (drop at (lexemes text.now pieces.now))) }
{
    let Some(piece) = piece_at(text, pieces, at) else {
        return halt(at);
    };
    match name_value(alloc, text, piece)? {
        Ok(name) => Ok((name, at + 1)),
        Err(long) => Err(ReadError::Halted(Halt { long, at })),
    }
}

/// The name of these bytes; the error says whether it is one but for its length.
#[tactic(auto, unfolding(ddl_parts::specs::Leaves::name_in))]
fn name_in(bytes: Option<Vec<u8>>) -> Result<Name, bool>
    ensures { result ≡ name_in (option_map (λ v. v.items) bytes) }
{
    let bytes = bytes.ok_or(false)?;
    if is_no_name(&bytes) {
        return Err(false);
    }
    if bytes.len() > LONGEST_NAME {
        return Err(true);
    }
    Name::new(bytes).ok_or(false)
}

/// Whether the bytes can be no name, whatever their number: there are none, or one is 0.
fn is_no_name(bytes: &[u8]) -> bool
    ensures { result ≡ (length bytes.now == 0 || list_any (λ b. b == 0) bytes.now) }
{
    bytes.is_empty() || bytes.contains(&0)
}

/// The text of these bytes.
#[tactic(auto, unfolding(ddl_parts::specs::Leaves::text_in))]
fn text_in(bytes: Option<Vec<u8>>) -> Result<Text, bool>
    ensures { result ≡ text_in (option_map (λ v. v.items) bytes) }
{
    Text::new(bytes.ok_or(false)?).ok_or(false)
}

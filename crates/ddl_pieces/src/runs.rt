//! Runs of tokens with balanced brackets: expressions and defaults.
ghost use Rattle.std.specs.Prelude.{◌≡◌, ◌≤◌, ◌-◌, [], length, reverse, take, drop, slice_range, Some, false, None, true, IfOk, option_map, if◌then◌else◌};
ghost use Rattle.ddl_parts.specs.Lexemes.{is_sign, is_word, source};
ghost use Rattle.ddl_parts.specs.Parts.{scan, seen_at};
ghost use Rattle.ddl_parts.specs.Pieces.{lexeme_of, lexemes, are_joined, are_sound, GivesPart, GivesRun, ended};
ghost use Rattle.ddl_parts.specs.Expressions.{behind_kind, without_round, without_square, behind_not, behind_null, is_end_kind, ends_run, nested, nest_step, nest_done, step_outside};
ghost use Rattle.ddl_parts.specs.declared.runs.Spot.TheVariants.{Inside};
ghost use Rattle.std.specs.Str.{IsUtf8};

use crate::pieces::{halt, is_sign_kind, piece_at};
use copy_text::Text;
use ddl_parts::{Bracket, Parsed, Piece, ReadError, Spot};
use sql_lex::{TokenKind, is_keyword};
use std::alloc::{AllocError, Global};

/// Closes a round bracket, if it is the innermost.
fn close_round(brackets: &mut Vec<Bracket>) -> bool
    ensures { (if result then Some (reverse brackets.new.items) else None) ≡ without_round (reverse brackets.old.items) }
{
    matches!(brackets.pop(), Some(Bracket::Round))
}

/// Closes a square bracket, if it is the innermost.
fn close_square(brackets: &mut Vec<Bracket>) -> bool
    ensures { (if result then Some (reverse brackets.new.items) else None) ≡ without_square (reverse brackets.old.items) }
{
    matches!(brackets.pop(), Some(Bracket::Square))
}

/// Opens or closes a bracket by a token; false where no run goes on with it.
fn turn(kind: TokenKind, brackets: &mut Vec<Bracket>) -> Result<bool, AllocError>
    ensures { IfOk result (λ goes. (if goes then Some (reverse brackets.new.items) else None) ≡ behind_kind kind (reverse brackets.old.items)) }
{
    match kind {
        TokenKind::Sign(b'(') => {
            brackets.push(Bracket::Round)?;
            Ok(true)
        }
        TokenKind::Sign(b'[') => {
            brackets.push(Bracket::Square)?;
            Ok(true)
        }
        TokenKind::Sign(b')') => Ok(close_round(brackets)),
        TokenKind::Sign(b']') => Ok(close_square(brackets)),
        TokenKind::Sign(b';') | TokenKind::MetaLine => Ok(false),
        _ => Ok(true),
    }
}

/// Whether no run takes the token outside brackets.
fn is_end_kind(kind: TokenKind) -> bool
    ensures { result ≡ is_end_kind kind }
{
    match kind {
        TokenKind::Sign(sign) => sign == b')' || sign == b']' || sign == b';',
        TokenKind::MetaLine => true,
        _ => false,
    }
}

/// Whether a run ends before the token, outside brackets.
#[tactic(auto, unfolding(ddl_parts::specs::Expressions::ends_run, ddl_parts::specs::Lexemes::is_word, ddl_parts::specs::Lexemes::is_sign))]
fn ends_run(text: &[u8], piece: Piece, bounded: bool) -> bool
    requires low { piece.token.start ≤ piece.token.end }
    requires high { piece.token.end ≤ length text.now }
    ensures { result ≡ ends_run bounded (lexeme_of text.now piece) }
{
    is_end_kind(piece.token.kind)
        || (bounded
            && (is_sign_kind(piece.token.kind, b',')
                || is_keyword(text, piece.token, "default")
                || is_keyword(text, piece.token, "constraint")))
}

/// Behind NOT.
fn behind_not(spot: Spot) -> Option<Spot>
    ensures { option_map (λ s. record { brackets = []; spot = s }) result ≡ behind_not spot }
{
    match spot {
        Spot::First => Some(Spot::FirstNot),
        Spot::Closed => None,
        _ => Some(Spot::LaterNot),
    }
}

/// Behind NULL; `takes` says that NOT NULL may end the run.
fn behind_null(takes: bool, spot: Spot) -> Option<Spot>
    ensures { option_map (λ s. record { brackets = []; spot = s }) result ≡ behind_null takes spot }
{
    match spot {
        Spot::FirstNot | Spot::Closed => None,
        Spot::LaterNot if takes => Some(Spot::Closed),
        Spot::LaterNot => None,
        _ => Some(Spot::Inside),
    }
}

/// The spot behind a token that goes on, or None.
fn inside_if(goes: bool) -> Option<Spot>
    ensures { result ≡ (if goes then Some Inside else None) }
{
    if goes { Some(Spot::Inside) } else { None }
}

/// The spot behind a token outside brackets, None where the run ends before it.
#[tactic(auto, unfolding(ddl_parts::specs::Lexemes::is_word))]
fn step_outside(
    text: &[u8],
    piece: Piece,
    bounded: bool,
    takes: bool,
    spot: Spot,
    brackets: &mut Vec<Bracket>,
) -> Result<Option<Spot>, AllocError>
    requires low { piece.token.start ≤ piece.token.end }
    requires high { piece.token.end ≤ length text.now }
    requires none { brackets.old.items ≡ [] }
    ensures { IfOk result (λ next. option_map (λ s. record { brackets = reverse brackets.new.items; spot = s }) next ≡ step_outside bounded takes spot (lexeme_of text.now piece)) }
{
    if ends_run(text, piece, bounded) {
        return Ok(None);
    }
    if bounded {
        if is_keyword(text, piece.token, "not") {
            return Ok(behind_not(spot));
        }
        if is_keyword(text, piece.token, "null") {
            return Ok(behind_null(takes, spot));
        }
        if matches!(spot, Spot::Closed) {
            return Ok(None);
        }
    }
    Ok(inside_if(turn(piece.token.kind, brackets)?))
}

/// The spot behind a token, None where the run ends before it.
#[tactic(auto, unfolding(ddl_parts::specs::Expressions::nest_step))]
fn step(
    text: &[u8],
    piece: Piece,
    bounded: bool,
    takes: bool,
    spot: Spot,
    brackets: &mut Vec<Bracket>,
) -> Result<Option<Spot>, AllocError>
    requires low { piece.token.start ≤ piece.token.end }
    requires high { piece.token.end ≤ length text.now }
    ensures { IfOk result (λ next. option_map (λ s. record { brackets = reverse brackets.new.items; spot = s }) next ≡ nest_step bounded takes (record { brackets = reverse brackets.old.items; spot = spot }) (lexeme_of text.now piece)) }
{
    if brackets.is_empty() {
        return step_outside(text, piece, bounded, takes, spot, brackets);
    }
    Ok(inside_if(turn(piece.token.kind, brackets)?))
}

/// Whether a run may end: behind a token, outside brackets.
#[tactic(auto, unfolding(ddl_parts::specs::Expressions::nest_done))]
fn is_done(spot: Spot, brackets: &[Bracket]) -> bool
    ensures { result ≡ nest_done (record { brackets = reverse brackets.now; spot = spot }) }
{
    brackets.is_empty() && !matches!(spot, Spot::First)
}

/// The end of a run, where it may end.
fn end_of_run(done: bool, at: usize) -> Result<usize, ReadError>
    ensures { result ≡ ended done false at }
{
    if done { Ok(at) } else { halt(at) }
}

/// The end of the run from a place on; `bounded` says that it is a default, `takes` that NOT NULL may end it.
#[tactic(auto, using(crate::proofs::Scanning::at_end, crate::proofs::Scanning::none_left), unfolding(ddl_parts::specs::Expressions::nest_done))]
pub(crate) fn run_end(
    alloc: Global,
    text: &[u8],
    pieces: &[Piece],
    from: usize,
    bounded: bool,
    takes: bool,
) -> Result<usize, ReadError>
    requires { are_joined (length text.now) pieces.now ≡ true }
    ensures { GivesRun (lexemes text.now pieces.now) from result (scan (nested bounded takes) (nested bounded takes).start (drop from (lexemes text.now pieces.now))) }
{
    if from > pieces.len() {
        return halt(from);
    }
    let mut brackets = Vec::new(alloc);
    let mut spot = Spot::First;
    let mut at = from;
    'tokens: loop {
        let done = is_done(spot, &brackets);
        let Some(piece) = piece_at(text, pieces, at) else {
            return end_of_run(done, at);
        };
        let Some(next) = step(text, piece, bounded, takes, spot, &mut brackets)? else {
            return end_of_run(done, at);
        };
        spot = next;
        at += 1;
    }
}

/// The text from one token up to the end of another.
fn between(text: &[u8], first: Piece, last: Piece) -> &[u8]
    requires low { first.token.start ≤ last.token.end }
    requires high { last.token.end ≤ length text.now }
    ensures { result.now ≡ slice_range text.now first.token.start last.token.end }
{
    &text[first.token.start..last.token.end]
}

/// The text of a run of tokens, from the first to the last.
#[tactic(auto, using(crate::proofs::RunSlices::run_is))]
fn source_between<'a>(text: &'a [u8], pieces: &[Piece], from: usize, end: usize) -> &'a [u8]
    requires joined { are_joined (length text.now) pieces.now ≡ true }
    requires low { from ≤ end }
    requires high { end ≤ length pieces.now }
    ensures { result.now ≡ source (take (end - from) (drop from (lexemes text.now pieces.now))) }
{
    if from == end {
        return &text[..0];
    }
    between(text, pieces[from], pieces[end - 1])
}

/// The text of a run of tokens that is UTF-8.
pub(crate) fn text_between(
    alloc: Global,
    text: &[u8],
    pieces: &[Piece],
    from: usize,
    end: usize,
) -> Result<Text, AllocError>
    requires joined { are_joined (length text.now) pieces.now ≡ true }
    requires sound { are_sound text.now pieces.now ≡ true }
    requires low { from ≤ end }
    requires high { end ≤ length pieces.now }
    ensures { IfOk result (λ t. t ≡ source (take (end - from) (drop from (lexemes text.now pieces.now)))) }
{
    let mut bytes = Vec::new(alloc);
    bytes.extend_from_slice(source_between(text, pieces, from, end))?;
    Ok(valid_text(bytes))
}

/// These bytes as a text.
fn valid_text(bytes: Vec<u8>) -> Text
    requires { IsUtf8 bytes.items }
    ensures { result ≡ bytes.items }
{
    match Text::new(bytes) {
        Some(text) => text,
        None => unreachable!(),
    }
}

/// The text of the run at a place, and the place behind it.
pub(crate) fn run_at(
    alloc: Global,
    text: &[u8],
    pieces: &[Piece],
    at: usize,
    bounded: bool,
    takes: bool,
) -> Parsed<Text>
    requires joined { are_joined (length text.now) pieces.now ≡ true }
    requires sound { are_sound text.now pieces.now ≡ true }
    ensures { GivesPart (lexemes text.now pieces.now) (λ t. t) result (seen_at source (scan (nested bounded takes) (nested bounded takes).start (drop at (lexemes text.now pieces.now)))) }
{
    let end = run_end(alloc, text, pieces, at, bounded, takes)?;
    let source = text_between(alloc, text, pieces, at, end)?;
    Ok((source, end))
}

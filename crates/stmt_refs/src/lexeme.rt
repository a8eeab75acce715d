//! What the tokens of a text say.
ghost use Rattle.std.specs.Prelude.{◌≡◌, ◌≤◌, ℕ, List, All, IfOk, Option, Some, None, length, map};
ghost use Rattle.std.specs.Option.{option_map, option_copied};
ghost use Rattle.sql_lex.specs.Meaning.{spelling as the_spelling};
ghost use Rattle.sql_lex.specs.Next.{LiesIn};
ghost use Rattle.cat_model.specs.Lexemes.{lexeme_of, lexemes, or_other, is_sign, is_word, is_one_of, name_in, word, quoted, literal};
ghost use Rattle.stmt_refs.specs.Said.{said};

use sql_lex::{Token, TokenKind, TokensError, literal_text, token_name, tokens};
use std::alloc::{AllocError, Global};

/// What a token says. A literal with escapes and a line that begins with a backslash say nothing.
#[derive(Drop)]
pub enum Lexeme {
    /// A bare word, with A to Z made small.
    Word(Vec<u8>),
    /// What a quoted name spells.
    Quoted(Vec<u8>),
    /// The text of a literal without escapes.
    Literal(Vec<u8>),
    /// A number, as it is written.
    Number(Vec<u8>),
    /// One byte that stands for itself.
    Sign(u8),
    /// Anything else.
    Other,
}

/// The lexemes of a text, and none where it has no tokens. The error says that there was no memory.
#[tactic(auto, unfolding(cat_model::specs::Lexemes::lexemes))]
pub fn lexemes(alloc: Global, text: &[u8]) -> Result<Vec<Lexeme>, AllocError>
    ensures { IfOk result (λ v. map said v.items ≡ lexemes text.now) }
{
    match tokens(alloc, text) {
        Ok(tokens) => all_said(alloc, text, &tokens),
        Err(TokensError::Lex(_)) => Ok(Vec::new(alloc)),
        Err(TokensError::Memory) => Err(AllocError),
    }
}

fn all_said(alloc: Global, text: &[u8], tokens: &[Token]) -> Result<Vec<Lexeme>, AllocError>
    requires { All (LiesIn text.now) tokens.now }
    ensures { IfOk result (λ v. map said v.items ≡ map (lexeme_of text.now) tokens.now) }
{
    let mut lexemes = Vec::new(alloc);
    for token in tokens {
        lexemes.push(said_by(alloc, text, *token)?)?;
    }
    Ok(lexemes)
}

fn said_by(alloc: Global, text: &[u8], token: Token) -> Result<Lexeme, AllocError>
    requires start { token.start ≤ token.end }
    requires end { token.end ≤ length text.now }
    ensures { IfOk result (λ x. said x ≡ lexeme_of text.now token) }
{
    match token.kind {
        TokenKind::Word => Ok(word(token_name(alloc, text, token)?)),
        TokenKind::QuotedName => Ok(quoted(token_name(alloc, text, token)?)),
        TokenKind::Literal => Ok(literal(literal_text(alloc, text, token)?)),
        TokenKind::Number => Ok(Lexeme::Number(spelling(alloc, text, token)?)),
        TokenKind::Sign(b) => Ok(Lexeme::Sign(b)),
        TokenKind::MetaLine => Ok(Lexeme::Other),
    }
}

#[tactic(auto, unfolding(sql_lex::specs::Meaning::spelling))]
fn spelling(alloc: Global, text: &[u8], token: Token) -> Result<Vec<u8>, AllocError>
    requires start { token.start ≤ token.end }
    requires end { token.end ≤ length text.now }
    ensures { IfOk result (λ v. v.items ≡ the_spelling text.now token) }
{
    text[token.start..token.end].to_vec(alloc)
}

fn word(name: Option<Vec<u8>>) -> Lexeme
    ensures { said result ≡ or_other word (option_map (λ v. v.items) name) }
{
    match name {
        Some(name) => Lexeme::Word(name),
        None => Lexeme::Other,
    }
}

fn quoted(name: Option<Vec<u8>>) -> Lexeme
    ensures { said result ≡ or_other quoted (option_map (λ v. v.items) name) }
{
    match name {
        Some(name) => Lexeme::Quoted(name),
        None => Lexeme::Other,
    }
}

fn literal(text: Option<Vec<u8>>) -> Lexeme
    ensures { said result ≡ or_other literal (option_map (λ v. v.items) text) }
{
    match text {
        Some(text) => Lexeme::Literal(text),
        None => Lexeme::Other,
    }
}

impl Lexeme {
    /// Whether it is this sign.
    pub fn is_sign(&self, b: u8) -> bool
        ensures { result ≡ is_sign b (said self.now) }
    {
        match self {
            Lexeme::Sign(c) => b == *c,
            _ => false,
        }
    }

    /// Whether it is this bare word, which is given with A to Z made small.
    pub fn is_word(&self, w: &[u8]) -> bool
        ensures { result ≡ is_word w.now (said self.now) }
    {
        match self {
            Lexeme::Word(v) => w == v.as_slice(),
            _ => false,
        }
    }

    /// The name that it spells.
    pub fn name(&self) -> Option<&[u8]>
        ensures { option_copied result ≡ name_in (said self.now) }
    {
        match self {
            Lexeme::Word(w) | Lexeme::Quoted(w) => Some(w.as_slice()),
            _ => None,
        }
    }
}

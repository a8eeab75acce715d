//! Texts of indexes.
ghost use Rattle.std.specs.Prelude.{◌≡◌, drop, IfOk};
ghost use Rattle.ddl_part_laws.specs.Pieces.{GivesPart};
ghost use Rattle.row_texts.specs.Texts.{whole};
ghost use Rattle.row_texts.specs.IndexTexts.{index_part, index_text, is_bracketed, if_bracketed, index_said};

use crate::tokens::{all_read, all_tokens};
use cat_model::QName;
use copy_text::{Name, Text};
use ddl_pieces::{Pieces, ReadError, qualified_name};
use std::alloc::{AllocError, Global};

/// What the text of an index says.
#[derive(Drop)]
pub struct IndexText {
    /// Whether it is unique.
    pub unique: bool,
    /// Its name.
    pub name: Name,
    /// The path of its table.
    pub table: QName,
    /// Its method, as `btree`.
    pub method: Name,
    /// What follows the method, from its bracket on.
    pub rest: Text,
}

// An index's name, its table, its method and what follows them.
#[tactic(auto, unfolding(crate::specs::IndexTexts::named_index))]
fn index_part(
    alloc: Global,
    pieces: &Pieces<'_>,
    at: usize,
    unique: bool,
) -> Result<(IndexText, usize), ReadError>
    ensures { GivesPart pieces.now (λ x. x) result ((index_part unique).read (drop at pieces.now)) }
{
    let at = pieces.word(at, "index")?;
    let (name, at) = pieces.name(alloc, at)?;
    let at = pieces.word(at, "on")?;
    let (table, at) = qualified_name(alloc, pieces, at)?;
    let at = pieces.word(at, "using")?;
    let (method, at) = pieces.name(alloc, at)?;
    let (rest, at) = pieces.expression(alloc, at)?;
    let said = IndexText {
        unique,
        name,
        table,
        method,
        rest,
    };
    Ok((said, at))
}

// CREATE INDEX, or CREATE UNIQUE INDEX.
#[tactic(auto, unfolding(crate::specs::IndexTexts::index_text))]
fn index_text(
    alloc: Global,
    pieces: &Pieces<'_>,
    at: usize,
) -> Result<(IndexText, usize), ReadError>
    ensures { GivesPart pieces.now (λ x. x) result (index_text.read (drop at pieces.now)) }
{
    let at = pieces.word(at, "create")?;
    if pieces.is_word(at, "unique") {
        let at = pieces.word(at, "unique")?;
        return index_part(alloc, pieces, at, true);
    }
    index_part(alloc, pieces, at, false)
}

// Whether a text begins with an opening bracket.
fn is_bracketed(text: &[u8]) -> bool
    ensures { result ≡ is_bracketed text.now }
{
    match text.first() {
        Some(byte) => *byte == b'(',
        None => false,
    }
}

// The same, where its rest begins with a bracket.
fn if_bracketed(said: IndexText) -> Option<IndexText>
    ensures { result ≡ if_bracketed said }
{
    if is_bracketed(said.rest.as_bytes()) {
        Some(said)
    } else {
        None
    }
}

// What all tokens of a text spell.
fn whole_text(alloc: Global, text: &[u8]) -> Result<Option<IndexText>, AllocError>
    ensures { IfOk result (λ said. said ≡ whole index_text text.now) }
{
    match all_tokens(alloc, text)? {
        Some(pieces) => all_read(&pieces, index_text(alloc, &pieces, 0)),
        None => Ok(None),
    }
}

/// What the text of an index says; `None` where the text is none. Blanks and comments around are free.
#[tactic(auto, unfolding(crate::specs::IndexTexts::index_said))]
pub fn index_said(alloc: Global, text: &[u8]) -> Result<Option<IndexText>, AllocError>
    ensures { IfOk result (λ said. said ≡ index_said text.now) }
{
    match whole_text(alloc, text)? {
        Some(said) => Ok(if_bracketed(said)),
        None => Ok(None),
    }
}

//! The references of an expression.
ghost use Rattle.std.specs.Prelude.{◌≡◌, IfOk, map};
ghost use Rattle.cat_model.specs.References.{expression_references, references_in};
ghost use Rattle.stmt_refs.specs.Said.{said};

use crate::casts::push_casts;
use crate::lexeme::{Lexeme, lexemes};
use cat_model::Key;
use std::alloc::{AllocError, Global};

/// The relations and types that an expression needs, in the text's order, one that is named twice twice; none where
/// the text has no tokens.
///
/// A literal before `::regclass` whose text is a qualified name is a relation, and a qualified name behind `::` is a
/// type. Names in the system's schemas are none. The error says that there was no memory.
/// <https://www.postgresql.org/docs/16/datatype-oid.html>
#[tactic(auto, unfolding(cat_model::specs::References::expression_references))]
pub fn expr_refs(alloc: Global, text: &[u8]) -> Result<Vec<Key>, AllocError>
    ensures { IfOk result (λ keys. keys.items ≡ expression_references text.now) }
{
    let lexemes = lexemes(alloc, text)?;
    references_in(alloc, &lexemes)
}

fn references_in(alloc: Global, lexemes: &[Lexeme]) -> Result<Vec<Key>, AllocError>
    ensures { IfOk result (λ keys. keys.items ≡ references_in (map said lexemes.now)) }
{
    let mut keys = Vec::new(alloc);
    let mut left = lexemes;
    while let Some((x, rest)) = left.split_first() {
        push_casts(alloc, &mut keys, x, rest)?;
        left = rest;
    }
    Ok(keys)
}

//! The references of a view's body.
ghost use Rattle.std.specs.Prelude.{◌≡◌, ◌&&◌, ◌++◌, IfOk, OnOk, map};
ghost use Rattle.cat_model.specs.References.{view_references, references_from, start, relation_here};
ghost use Rattle.stmt_refs.specs.Said.{said};

use crate::casts::push_casts;
use crate::lexeme::{Lexeme, lexemes};
use crate::path::{front_path, is_relation, push_relation};
use crate::place::Place;
use cat_model::{Key, QName};
use std::alloc::{AllocError, Global};

/// The relations and types that a view's body needs, in the text's order, one that is named twice twice; none where
/// the text has no tokens.
///
/// Beside the references of an expression these are the qualified names of two parts, with no bracket behind them,
/// right after FROM, JOIN or a comma of a FROM list, where only brackets, ONLY and LATERAL may stand between. The FROM
/// of IS DISTINCT FROM and those between the brackets of EXTRACT, SUBSTRING, TRIM, OVERLAY and POSITION begin no list.
/// Names in the system's schemas are none. The error says that there was no memory.
/// <https://www.postgresql.org/docs/16/queries-table-expressions.html>
#[tactic(auto, unfolding(cat_model::specs::References::view_references))]
pub fn view_refs(alloc: Global, text: &[u8]) -> Result<Vec<Key>, AllocError>
    ensures { IfOk result (λ keys. keys.items ≡ view_references text.now) }
{
    let lexemes = lexemes(alloc, text)?;
    references_in(alloc, &lexemes)
}

fn relation_here(
    alloc: Global,
    relation: bool,
    lexemes: &[Lexeme],
) -> Result<Option<QName>, AllocError>
    ensures { IfOk result (λ q. q ≡ relation_here relation (map said lexemes.now)) }
{
    if relation {
        front_path(alloc, lexemes)
    } else {
        Ok(None)
    }
}

fn references_in(alloc: Global, lexemes: &[Lexeme]) -> Result<Vec<Key>, AllocError>
    ensures { IfOk result (λ keys. keys.items ≡ references_from start (map said lexemes.now)) }
{
    let mut keys = Vec::new(alloc);
    let mut place = Place::new(alloc);
    let mut left = lexemes;
    while let Some((x, rest)) = left.split_first() {
        let relation = place.expects && is_relation(left);
        push_casts(alloc, &mut keys, x, rest)?;
        push_relation(&mut keys, relation_here(alloc, relation, left)?)?;
        place.pass(x, relation)?;
        left = rest;
    }
    Ok(keys)
}

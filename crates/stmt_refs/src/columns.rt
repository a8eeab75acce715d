//! The plain columns of an index.
ghost use Rattle.std.specs.Prelude.{◌≡◌, ◌&&◌, IfOk, Some, None, map, if◌then◌else◌};
ghost use Rattle.cat_model.specs.IndexColumns.{plain_columns, names_in_brackets, names_to_bracket, checked_name};
ghost use Rattle.cat_model.specs.Lexemes.{name_in, is_sign, no_more};
ghost use Rattle.stmt_refs.specs.Said.{said};

use crate::lexeme::{Lexeme, lexemes};
use crate::path::first_two;
use cat_model::Items;
use copy_text::Name;
use std::alloc::{AllocError, Global};

/// The columns of an index whose text behind the method is a bracket of names and nothing else, as `(a, b)`; `None`
/// for any other text, as one with an expression, an order or a WHERE. The error says that there was no memory.
/// <https://www.postgresql.org/docs/16/sql-createindex.html>
#[tactic(auto, unfolding(cat_model::specs::IndexColumns::plain_columns))]
pub fn plain_columns(alloc: Global, text: &[u8]) -> Result<Option<Items<Name>>, AllocError>
    ensures { IfOk result (λ names. names ≡ plain_columns text.now) }
{
    let lexemes = lexemes(alloc, text)?;
    match lexemes.split_first() {
        Some((bracket, rest)) if bracket.is_sign(b'(') => names_to_bracket(alloc, rest),
        _ => Ok(None),
    }
}

fn checked_name(alloc: Global, x: &Lexeme) -> Result<Option<Name>, AllocError>
    ensures { IfOk result (λ name. name ≡ checked_name (name_in (said x.now))) }
{
    match x.name() {
        Some(name) => Ok(Name::new(name.to_vec(alloc)?)),
        None => Ok(None),
    }
}

// The names, where a closing bracket stands here with nothing behind it.
fn closed(names: Vec<Name>, mark: &Lexeme, rest: &[Lexeme]) -> Option<Items<Name>>
    ensures { result ≡ (if is_sign 41 (said mark.now) && no_more (map said rest.now) then Some names.items else None) }
{
    if mark.is_sign(b')') && rest.is_empty() {
        Some(Items::new(names))
    } else {
        None
    }
}

// Names with commas between, up to a closing bracket with nothing behind it.
fn names_to_bracket(alloc: Global, lexemes: &[Lexeme]) -> Result<Option<Items<Name>>, AllocError>
    ensures { IfOk result (λ names. names ≡ names_to_bracket (map said lexemes.now)) }
{
    let mut names = Vec::new(alloc);
    let mut left = lexemes;
    while let Some((x, mark, rest)) = first_two(left) {
        let Some(name) = checked_name(alloc, x)? else {
            return Ok(None);
        };
        names.push(name)?;
        if !mark.is_sign(b',') {
            return Ok(closed(names, mark, rest));
        }
        left = rest;
    }
    Ok(None)
}

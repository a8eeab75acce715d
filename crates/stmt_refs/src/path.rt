//! Qualified names among lexemes.
ghost use Rattle.std.specs.Prelude.{◌≡◌, ◌<◌, ◌∷◌, ◌++◌, List, IfOk, OnOk, MatchOption, Some, None, length, map};
ghost use Rattle.std.specs.Option.{option_copied};
ghost use Rattle.cat_model.specs.declared.key.Key.TheVariants as key;
ghost use Rattle.cat_model.specs.References.{is_system, path_of, path_of_names, no_dot, front_path, whole_path, reference, no_bracket, is_relation};
ghost use Rattle.cat_model.specs.Lexemes.{no_more, name_in};
ghost use Rattle.stmt_refs.specs.Said.{said};

use crate::lexeme::Lexeme;
use cat_model::{Key, QName};
use copy_text::Name;
use std::alloc::{AllocError, Global};

fn is_system(schema: &[u8]) -> bool
    ensures { result ≡ is_system schema.now }
{
    schema == b"pg_catalog".as_slice() || schema == b"information_schema".as_slice()
}

// The path of these two parts, where both are names and the schema isn't the system's.
fn path_of(alloc: Global, schema: &[u8], name: &[u8]) -> Result<Option<QName>, AllocError>
    ensures { IfOk result (λ q. q ≡ path_of schema.now name.now) }
{
    if is_system(schema) {
        return Ok(None);
    }
    match (
        Name::new(schema.to_vec(alloc)?),
        Name::new(name.to_vec(alloc)?),
    ) {
        (Some(schema), Some(name)) => Ok(Some(QName { schema, name })),
        _ => Ok(None),
    }
}

fn path_between(alloc: Global, a: &Lexeme, b: &Lexeme) -> Result<Option<QName>, AllocError>
    ensures { IfOk result (λ q. q ≡ path_of_names (name_in (said a.now)) (name_in (said b.now))) }
{
    match (a.name(), b.name()) {
        (Some(schema), Some(name)) => path_of(alloc, schema, name),
        _ => Ok(None),
    }
}

/// The first three lexemes, and what follows them.
pub(crate) fn first_three(xs: &[Lexeme]) -> Option<(&Lexeme, &Lexeme, &Lexeme, &[Lexeme])>
    ensures { MatchOption result (length xs.now < 3) (λ p. xs.now ≡ p.0.now ∷ p.1.now ∷ p.2.now ∷ p.3.now) }
{
    match xs {
        [a, b, c, rest @ ..] => Some((a, b, c, rest)),
        _ => None,
    }
}

/// The first two lexemes, and what follows them.
pub(crate) fn first_two(xs: &[Lexeme]) -> Option<(&Lexeme, &Lexeme, &[Lexeme])>
    ensures { MatchOption result (length xs.now < 2) (λ p. xs.now ≡ p.0.now ∷ p.1.now ∷ p.2.now) }
{
    match xs {
        [a, b, rest @ ..] => Some((a, b, rest)),
        _ => None,
    }
}

/// Whether no dot stands at the front.
pub(crate) fn no_dot(xs: &[Lexeme]) -> bool
    ensures { result ≡ no_dot (map said xs.now) }
{
    match xs.split_first() {
        Some((x, _)) => !x.is_sign(b'.'),
        None => true,
    }
}

fn no_bracket(xs: &[Lexeme]) -> bool
    ensures { result ≡ no_bracket (map said xs.now) }
{
    match xs.split_first() {
        Some((x, _)) => !x.is_sign(b'('),
        None => true,
    }
}

/// The path that the qualified name of two parts at the front gives.
pub(crate) fn front_path(alloc: Global, xs: &[Lexeme]) -> Result<Option<QName>, AllocError>
    ensures { IfOk result (λ q. q ≡ front_path (map said xs.now)) }
{
    match first_three(xs) {
        Some((a, dot, b, rest)) if dot.is_sign(b'.') && no_dot(rest) => path_between(alloc, a, b),
        _ => Ok(None),
    }
}

/// The same where nothing stands behind it.
pub(crate) fn whole_path(alloc: Global, xs: &[Lexeme]) -> Result<Option<QName>, AllocError>
    ensures { IfOk result (λ q. q ≡ whole_path (map said xs.now)) }
{
    match first_three(xs) {
        Some((a, dot, b, rest)) if dot.is_sign(b'.') && rest.is_empty() => path_between(
            alloc, a, b,
        ),
        _ => Ok(None),
    }
}

/// Whether a qualified name of two parts that no bracket follows stands at the front.
pub(crate) fn is_relation(xs: &[Lexeme]) -> bool
    ensures { result ≡ is_relation (map said xs.now) }
{
    match first_three(xs) {
        Some((a, dot, b, rest)) => {
            a.name().is_some()
                && dot.is_sign(b'.')
                && b.name().is_some()
                && no_dot(rest)
                && no_bracket(rest)
        }
        None => false,
    }
}

/// Adds the relation, where there is one.
pub(crate) fn push_relation(keys: &mut Vec<Key>, path: Option<QName>) -> Result<(), AllocError>
    ensures { OnOk result (keys.new.items ≡ keys.old.items ++ reference key.Rel path) }
{
    if let Some(q) = path {
        keys.push(Key::Rel(q))?;
    }
    Ok(())
}

/// Adds the type, where there is one.
pub(crate) fn push_type(keys: &mut Vec<Key>, path: Option<QName>) -> Result<(), AllocError>
    ensures { OnOk result (keys.new.items ≡ keys.old.items ++ reference key.UserType path) }
{
    if let Some(q) = path {
        keys.push(Key::UserType(q))?;
    }
    Ok(())
}

//! References by casts: a literal before `::regclass`, and a type behind `::`.
ghost use Rattle.std.specs.Prelude.{◌≡◌, ◌++◌, IfOk, OnOk, map};
ghost use Rattle.cat_model.specs.References.{casts_to_regclass, relation_named, type_named, cast_references};
ghost use Rattle.stmt_refs.specs.Said.{said};

use crate::lexeme::{Lexeme, lexemes};
use crate::path::{first_three, front_path, no_dot, push_relation, push_type, whole_path};
use cat_model::{Key, QName};
use std::alloc::{AllocError, Global};

fn casts_to_regclass(xs: &[Lexeme]) -> bool
    ensures { result ≡ casts_to_regclass (map said xs.now) }
{
    match first_three(xs) {
        Some((a, b, w, rest)) => {
            a.is_sign(b':') && b.is_sign(b':') && w.is_word(b"regclass") && no_dot(rest)
        }
        None => false,
    }
}

fn relation_named(alloc: Global, x: &Lexeme, rest: &[Lexeme]) -> Result<Option<QName>, AllocError>
    ensures { IfOk result (λ q. q ≡ relation_named (said x.now) (map said rest.now)) }
{
    match x {
        Lexeme::Literal(text) if casts_to_regclass(rest) => {
            let path = lexemes(alloc, text)?;
            whole_path(alloc, &path)
        }
        _ => Ok(None),
    }
}

fn type_named(alloc: Global, x: &Lexeme, rest: &[Lexeme]) -> Result<Option<QName>, AllocError>
    ensures { IfOk result (λ q. q ≡ type_named (said x.now) (map said rest.now)) }
{
    match rest.split_first() {
        Some((second, rest)) if x.is_sign(b':') && second.is_sign(b':') => front_path(alloc, rest),
        _ => Ok(None),
    }
}

/// Adds what a lexeme refers to by a cast, which may stand in those behind it.
pub(crate) fn push_casts(
    alloc: Global,
    keys: &mut Vec<Key>,
    x: &Lexeme,
    rest: &[Lexeme],
) -> Result<(), AllocError>
    ensures { OnOk result (keys.new.items ≡ keys.old.items ++ cast_references (said x.now) (map said rest.now)) }
{
    push_relation(keys, relation_named(alloc, x, rest)?)?;
    push_type(keys, type_named(alloc, x, rest)?)
}

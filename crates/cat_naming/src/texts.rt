//! Texts of types and defaults.
ghost use Rattle.std.specs.Prelude.{◌≡◌, Some, IfOk};
ghost use Rattle.std.specs.Option.{option_and_then};
ghost use Rattle.cat_model.specs.TypeEffects.{as_it_is};
ghost use Rattle.row_texts.specs.TypeTexts.{type_named};
ghost use Rattle.cat_lookups.specs.Ends.{resolved};
ghost use Rattle.cat_naming.specs.Types.{typed};
ghost use Rattle.row_texts.specs.DefaultTexts.{default_said};

use cat_lookups::Lookups;
use cat_model::{Resolved, TypeName};
use copy_text::Text;
use row_texts::{default_said, type_named};
use std::alloc::{AllocError, Global};

// A type without a row is what it is.
fn as_it_is(name: &TypeName) -> Result<Resolved, AllocError>
    ensures { IfOk result (λ resolved. resolved ≡ as_it_is name.now) }
{
    Ok(Resolved {
        type_name: name.clone()?,
        labels: None,
        not_null: false,
    })
}

// What the type of an oid is at the end of its chain.
fn resolved(
    alloc: Global,
    lookups: &Lookups<'_>,
    oid: u32,
    text: &Text,
    name: &TypeName,
) -> Result<Option<Resolved>, AllocError>
    requires { type_named text.now ≡ Some name.now }
    ensures { IfOk result (λ end. end ≡ resolved lookups.now oid text.now) }
{
    if oid == 0 {
        return Ok(Some(as_it_is(name)?));
    }
    lookups.ends().end_of(alloc, oid)
}

// The same with the type's name.
fn with_end(
    alloc: Global,
    lookups: &Lookups<'_>,
    oid: u32,
    text: &Text,
    name: TypeName,
) -> Result<Option<(TypeName, Resolved)>, AllocError>
    requires { type_named text.now ≡ Some name }
    ensures { IfOk result (λ found. found ≡ typed lookups.now oid text.now) }
{
    match resolved(alloc, lookups, oid, text, &name)? {
        Some(end) => Ok(Some((name, end))),
        None => Ok(None),
    }
}

/// The type that a text names, with what the type of this oid is at the end of its chain.
pub(crate) fn typed(
    alloc: Global,
    lookups: &Lookups<'_>,
    oid: u32,
    text: &Text,
) -> Result<Option<(TypeName, Resolved)>, AllocError>
    ensures { IfOk result (λ found. found ≡ typed lookups.now oid text.now) }
{
    match type_named(alloc, text.as_bytes())? {
        Some(name) => with_end(alloc, lookups, oid, text, name),
        None => Ok(None),
    }
}

/// The text of a default, from its first token to its last, where there is one; `None` where a text is none.
pub(crate) fn default_of(alloc: Global, text: &Option<Text>) -> Result<Option<Text>, AllocError>
    ensures { IfOk result (λ said. said ≡ option_and_then default_said text.now) }
{
    match text {
        Some(text) => default_said(alloc, text.as_bytes()),
        None => Ok(None),
    }
}

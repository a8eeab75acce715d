//! Names and texts as they are written, one behind the other.
ghost use Rattle.std.specs.Prelude.{◌≡◌, ◌++◌, OnOk, IfOk, string_bytes, codes};
ghost use Rattle.std.specs.List.{flat_map};
ghost use Rattle.copy_text.specs.Texts.{IsText};
ghost use Rattle.ddl_spelling.specs.Keys.{rest_text};
ghost use Rattle.ddl_spelling.specs.Paths.{path, listed};
ghost use Rattle.sql_lex.specs.Written.{written_name};

use cat_model::QName;
use copy_text::{Name, Text};
use sql_lex::write_name;
use std::alloc::{AllocError, Global};

// The text of bytes that are one.
fn text_of_bytes(bytes: Vec<u8>) -> Text
    requires { IsText bytes.items }
    ensures { result ≡ bytes.items }
{
    match Text::new(bytes) {
        Some(text) => text,
        None => unreachable!(),
    }
}

/// The text of a string.
pub(crate) fn text_of(string: String) -> Text
    ensures { result ≡ string_bytes string }
{
    match Text::new(string.into_bytes()) {
        Some(text) => text,
        None => unreachable!(),
    }
}

// A name as statements write it.
fn written(alloc: Global, name: &Name) -> Result<Text, AllocError>
    ensures { IfOk result (λ text. text ≡ written_name name.now) }
{
    let mut bytes = Vec::new(alloc);
    write_name(name.as_bytes(), &mut bytes)?;
    Ok(text_of_bytes(bytes))
}

/// Words and a text.
pub(crate) fn put_text(words: &str, text: &Text, out: &mut String) -> Result<(), AllocError>
    ensures { OnOk result (string_bytes out.new ≡ string_bytes out.old ++ (words.now ++ text.now)) }
{
    out.push_str(words)?;
    out.push_str(text.as_str())
}

/// Words and a name.
pub(crate) fn put_name(
    alloc: Global,
    words: &str,
    name: &Name,
    out: &mut String,
) -> Result<(), AllocError>
    ensures { OnOk result (string_bytes out.new ≡ string_bytes out.old ++ (words.now ++ written_name name.now)) }
{
    let text = written(alloc, name)?;
    put_text(words, &text, out)
}

/// Words and a qualified name.
#[tactic(auto, unfolding(ddl_spelling::specs::Paths::path))]
pub(crate) fn put_path(
    alloc: Global,
    words: &str,
    q: &QName,
    out: &mut String,
) -> Result<(), AllocError>
    ensures { OnOk result (string_bytes out.new ≡ string_bytes out.old ++ (words.now ++ path q.now)) }
{
    put_name(alloc, words, &q.schema, out)?;
    put_name(alloc, ".", &q.name, out)
}

// Further names of a list.
fn put_more_names(alloc: Global, names: &[Name], out: &mut String) -> Result<(), AllocError>
    ensures { OnOk result (string_bytes out.new ≡ string_bytes out.old ++ flat_map (λ n. codes ", " ++ written_name n) names.now) }
{
    for name in names {
        put_name(alloc, ", ", name, out)?;
    }
    Ok(())
}

/// Names with commas, in brackets.
#[tactic(auto, unfolding(ddl_spelling::specs::Paths::listed))]
pub(crate) fn put_names(alloc: Global, names: &[Name], out: &mut String) -> Result<(), AllocError>
    ensures { OnOk result (string_bytes out.new ≡ string_bytes out.old ++ listed names.now) }
{
    match names {
        [] => out.push_str("()"),
        [first, more @ ..] => {
            put_name(alloc, "(", first, out)?;
            put_more_names(alloc, more, out)?;
            out.push_str(")")
        }
    }
}

/// What follows, behind a space, where there is something.
pub(crate) fn put_rest(rest: &Text, out: &mut String) -> Result<(), AllocError>
    ensures { OnOk result (string_bytes out.new ≡ string_bytes out.old ++ rest_text rest.now) }
{
    match rest.as_bytes() {
        [] => Ok(()),
        _ => put_text(" ", rest, out),
    }
}

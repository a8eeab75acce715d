//! Names, texts, numbers and lists.
use cat_model::{QName, TypeName};
use copy_text::{Name, Text};
use itoa::Buffer;
use sql_lex::write_name;
use std::alloc::AllocError;

/// Appends a text between quotes.
pub(crate) fn put_text(text: &Text, out: &mut Vec<u8>) -> Result<(), AllocError> {
    out.extend_from_slice(b"'")?;
    out.extend_from_slice(text.as_bytes())?;
    out.extend_from_slice(b"'")
}

/// Appends a text between quotes, or `null`.
pub(crate) fn put_nullable(text: &Option<Text>, out: &mut Vec<u8>) -> Result<(), AllocError> {
    match text {
        Some(text) => put_text(text, out),
        None => out.extend_from_slice(b"null"),
    }
}

/// Appends a number.
pub(crate) fn put_number(n: i64, out: &mut Vec<u8>) -> Result<(), AllocError> {
    out.extend_from_slice(Buffer::new().format(n).as_bytes())
}

/// Appends a name as statements write it.
pub(crate) fn put_name(name: &Name, out: &mut Vec<u8>) -> Result<(), AllocError> {
    write_name(name.as_bytes(), out)
}

/// Appends a schema, a dot and a name.
pub(crate) fn put_path(q: &QName, out: &mut Vec<u8>) -> Result<(), AllocError> {
    put_name(&q.schema, out)?;
    out.extend_from_slice(b".")?;
    put_name(&q.name, out)
}

/// Appends a type's name.
pub(crate) fn put_type(name: &TypeName, out: &mut Vec<u8>) -> Result<(), AllocError> {
    match name {
        TypeName::Words(words) => out.extend_from_slice(words.as_bytes()),
        TypeName::Path(q) => put_path(q, out),
    }
}

/// Appends what stands between the items of a list, before its item at this place.
pub(crate) fn put_between(at: usize, between: &[u8], out: &mut Vec<u8>) -> Result<(), AllocError> {
    if at > 0 {
        out.extend_from_slice(between)?;
    }
    Ok(())
}

/// Appends names in brackets.
pub(crate) fn put_names(names: &[Name], out: &mut Vec<u8>) -> Result<(), AllocError> {
    out.extend_from_slice(b"(")?;
    for (i, name) in names.iter().enumerate() {
        put_between(i, b", ", out)?;
        put_name(name, out)?;
    }
    out.extend_from_slice(b")")
}

/// Appends labels in brackets.
pub(crate) fn put_labels(labels: &[Text], out: &mut Vec<u8>) -> Result<(), AllocError> {
    out.extend_from_slice(b"(")?;
    for (i, label) in labels.iter().enumerate() {
        put_between(i, b", ", out)?;
        put_text(label, out)?;
    }
    out.extend_from_slice(b")")
}

/// Appends a word where it holds.
pub(crate) fn put_if(holds: bool, word: &[u8], out: &mut Vec<u8>) -> Result<(), AllocError> {
    if holds {
        out.extend_from_slice(word)?;
    }
    Ok(())
}

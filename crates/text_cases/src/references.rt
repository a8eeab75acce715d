//! Cases of what expressions, views and indexes refer to.
use cat_model::Key;
use copy_text::Name;
use std::alloc::{AllocError, Global};
use stmt_refs::{expr_refs, plain_columns, view_refs};
use tool_words::Difference;

/// Appends a key's kind and its names.
pub fn put_key(alloc: Global, key: &Key, out: &mut Vec<u8>) -> Result<(), AllocError> {
    let told = Difference::new(alloc, key.clone()?)?;
    out.extend_from_slice(told.text())
}

fn put_keys(alloc: Global, keys: &[Key], out: &mut Vec<u8>) -> Result<(), AllocError> {
    if keys.is_empty() {
        return out.extend_from_slice(b"(none)");
    }
    for (i, key) in keys.iter().enumerate() {
        if i > 0 {
            out.extend_from_slice(b", ")?;
        }
        put_key(alloc, key, out)?;
    }
    Ok(())
}

/// An expression: what it refers to.
pub(crate) fn expression(alloc: Global, text: &[u8], out: &mut Vec<u8>) -> Result<(), AllocError> {
    put_keys(alloc, &expr_refs(alloc, text)?, out)
}

/// A view's body: what it refers to.
pub(crate) fn view(alloc: Global, text: &[u8], out: &mut Vec<u8>) -> Result<(), AllocError> {
    put_keys(alloc, &view_refs(alloc, text)?, out)
}

/// Appends names with commas between.
pub(crate) fn put_names(names: &[Name], out: &mut Vec<u8>) -> Result<(), AllocError> {
    for (i, name) in names.iter().enumerate() {
        if i > 0 {
            out.extend_from_slice(b", ")?;
        }
        out.extend_from_slice(name.as_bytes())?;
    }
    Ok(())
}

/// What stands behind an index's method: its columns, where they are plain.
pub(crate) fn index_columns(
    alloc: Global,
    text: &[u8],
    out: &mut Vec<u8>,
) -> Result<(), AllocError> {
    match plain_columns(alloc, text)? {
        Some(names) => put_names(names.as_slice(), out),
        None => out.extend_from_slice(b"no plain columns"),
    }
}

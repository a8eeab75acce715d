//! Whether the texts of rows agree with the rows: the types that they name, and what they refer to.
ghost use Rattle.std.specs.Prelude.{◌≡◌, IfOk};
ghost use Rattle.text_tables.specs.Agreeing.{is_without_row, is_path, is_at, agrees, is_type_named, is_met, are_met, is_met_default};

use cat_book::Book;
use cat_model::{Key, QName, TypeName};
use copy_text::Text;
use plain_tables::is_system;
use row_texts::{is_default, type_named};
use std::alloc::{AllocError, Global};
use stmt_refs::expr_refs;

/// Whether there is a path, and it is this one.
pub fn is_path(path: &Option<QName>, q: &QName) -> bool
    ensures { result ≡ is_path path.now q.now }
{
    match path {
        Some(path) => path.schema == q.schema && path.name == q.name,
        None => false,
    }
}

// Whether a type has no row in pg_type.
fn is_without_row(name: &TypeName) -> bool
    ensures { result ≡ is_without_row name.now }
{
    match name {
        TypeName::Words(_) => true,
        TypeName::Path(q) => is_system(&q.schema),
    }
}

// Whether a type is the one of a path.
fn is_at(path: &Option<QName>, name: &TypeName) -> bool
    ensures { result ≡ is_at path.now name.now }
{
    match name {
        TypeName::Path(q) => is_path(path, q),
        TypeName::Words(_) => false,
    }
}

// Whether an oid and a type's name agree.
fn agrees(book: &Book<'_>, oid: u32, name: &TypeName) -> Result<bool, AllocError>
    ensures { IfOk result (λ is. is ≡ agrees book.now oid name.now) }
{
    if oid == 0 {
        return Ok(is_without_row(name));
    }
    let path = book.path_of(oid)?;
    Ok(is_at(&path, name))
}

/// Whether a text names the type that an oid leads to. An oid of 0 goes with a type that has no row in pg_type: words, as
/// `character varying(20)`, or a name in a schema of the system. Blanks and comments around are free.
pub fn is_type_named(
    alloc: Global,
    book: &Book<'_>,
    oid: u32,
    text: &Text,
) -> Result<bool, AllocError>
    ensures { IfOk result (λ is. is ≡ is_type_named book.now oid text.now) }
{
    match type_named(alloc, text.as_bytes())? {
        Some(name) => agrees(book, oid, &name),
        None => Ok(false),
    }
}

/// Whether a reference is met: a relation of any kind is there, or a type, which isn't the one of the path `own`. Expressions
/// and views refer to nothing else.
pub fn is_met(book: &Book<'_>, own: &Option<QName>, key: &Key) -> bool
    ensures { result ≡ is_met book.now own.now key.now }
{
    match key {
        Key::Rel(q) => book.has_class(q),
        Key::UserType(q) => book.has_type(q) && !is_path(own, q),
        _ => true,
    }
}

/// Whether all references of an expression are met: each relation is there, and each type, which isn't the one of the path
/// `own`, that of a domain which has the expression.
pub fn are_met(
    alloc: Global,
    book: &Book<'_>,
    own: &Option<QName>,
    text: &[u8],
) -> Result<bool, AllocError>
    ensures { IfOk result (λ are. are ≡ are_met book.now own.now text.now) }
{
    let keys = expr_refs(alloc, text)?;
    Ok(keys.iter().all(|key| is_met(book, own, key)))
}

/// Whether a text is the expression of a default whose references are met, as of `are_met`.
pub(crate) fn is_met_default(
    alloc: Global,
    book: &Book<'_>,
    own: &Option<QName>,
    text: &Text,
) -> Result<bool, AllocError>
    ensures { IfOk result (λ is. is ≡ is_met_default book.now own.now text.now) }
{
    let reads = is_default(alloc, text.as_bytes())?;
    let met = are_met(alloc, book, own, text.as_bytes())?;
    Ok(reads && met)
}

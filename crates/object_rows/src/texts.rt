//! The texts that rows hold.
ghost use Rattle.std.specs.Prelude.{◌≡◌, ◌++◌, [], IfOk, Some, OnOk, string_bytes, codes};
ghost use Rattle.ddl_spelling.specs.Keys.{rest_text};
ghost use Rattle.ddl_spelling.specs.Paths.{path, listed};
ghost use Rattle.ddl_spelling.specs.Tables.{type_text};
ghost use Rattle.good_texts.specs.Rows.{body_text, index_words, index_text, key_said, foreign_said, check_said, constraint_text};
ghost use Rattle.row_texts.specs.SequenceTypes.{sequence_kind};

use crate::words::{put_name, put_names, put_path, put_rest, put_text, text_of};
use cat_model::{Constraint, ConstraintKind, Index, Items, QName, SequenceKind, TypeName};
use copy_text::{Name, Text};
use std::alloc::{AllocError, Global};

// A qualified name as statements write it.
fn path_text(alloc: Global, q: &QName) -> Result<Text, AllocError>
    ensures { IfOk result (λ text. text ≡ path q.now) }
{
    let mut out = String::new(alloc);
    put_path(alloc, "", q, &mut out)?;
    Ok(text_of(out))
}

/// A type as it is named.
#[tactic(auto, unfolding(ddl_spelling::specs::Tables::type_text))]
pub(crate) fn type_text(alloc: Global, name: &TypeName) -> Result<Text, AllocError>
    ensures { IfOk result (λ text. text ≡ type_text name.now) }
{
    match name {
        TypeName::Words(words) => words.clone(),
        TypeName::Path(q) => path_text(alloc, q),
    }
}

#[tactic(auto, using(crate::proofs::SequenceWords::smallint_said, crate::proofs::SequenceWords::integer_said, crate::proofs::SequenceWords::bigint_said))]
fn kind_words(kind: SequenceKind) -> &'static str
    ensures { sequence_kind result.now ≡ Some kind }
{
    match kind {
        SequenceKind::SmallInt => "smallint",
        SequenceKind::Integer => "integer",
        SequenceKind::BigInt => "bigint",
    }
}

/// The type of a sequence's numbers.
pub(crate) fn kind_text(alloc: Global, kind: SequenceKind) -> Result<Text, AllocError>
    ensures { IfOk result (λ text. sequence_kind text ≡ Some kind) }
{
    Ok(text_of(String::from_str(alloc, kind_words(kind))?))
}

/// The body of a view, with a semicolon behind it.
pub(crate) fn body_text(alloc: Global, body: &Text) -> Result<Text, AllocError>
    ensures { IfOk result (λ text. text ≡ body_text body.now) }
{
    let mut out = String::from_str(alloc, body.as_str())?;
    out.push_str(";")?;
    Ok(text_of(out))
}

fn index_words(index: &Index) -> &'static str
    ensures { result.now ≡ index_words index.now }
{
    if index.unique {
        "CREATE UNIQUE INDEX "
    } else {
        "CREATE INDEX "
    }
}

/// The statement that makes an index, without its semicolon.
pub(crate) fn index_text(
    alloc: Global,
    table: &QName,
    name: &Name,
    index: &Index,
) -> Result<Text, AllocError>
    ensures { IfOk result (λ text. text ≡ index_text table.now name.now index.now) }
{
    let mut out = String::new(alloc);
    put_name(alloc, index_words(index), name, &mut out)?;
    put_path(alloc, " ON ", table, &mut out)?;
    put_name(alloc, " USING ", &index.method, &mut out)?;
    put_text(" ", &index.text, &mut out)?;
    Ok(text_of(out))
}

/// The definition of a check.
pub(crate) fn check_text(alloc: Global, text: &Text) -> Result<Text, AllocError>
    ensures { IfOk result (λ said. said ≡ check_said text.now) }
{
    let mut out = String::new(alloc);
    put_text("CHECK (", text, &mut out)?;
    out.push_str(")")?;
    Ok(text_of(out))
}

// The definition of a primary key or a unique constraint, by its words.
fn key_text(
    alloc: Global,
    words: &str,
    columns: &Items<Name>,
    rest: &Text,
) -> Result<Text, AllocError>
    ensures { IfOk result (λ text. text ≡ key_said words.now columns.now rest.now) }
{
    let mut out = String::from_str(alloc, words)?;
    put_names(alloc, columns.as_slice(), &mut out)?;
    put_rest(rest, &mut out)?;
    Ok(text_of(out))
}

// What a foreign key refers to, and what follows.
fn put_parent(
    alloc: Global,
    parent: &QName,
    parents: &Items<Name>,
    rest: &Text,
    out: &mut String,
) -> Result<(), AllocError>
    ensures { OnOk result (string_bytes out.new ≡ string_bytes out.old ++ (codes " REFERENCES " ++ (path parent.now ++ (listed parents.now ++ rest_text rest.now)))) }
{
    put_path(alloc, " REFERENCES ", parent, out)?;
    put_names(alloc, parents.as_slice(), out)?;
    put_rest(rest, out)?;
    Ok(())
}

// The definition of a foreign key.
fn foreign_text(
    alloc: Global,
    columns: &Items<Name>,
    parent: &QName,
    parents: &Items<Name>,
    rest: &Text,
) -> Result<Text, AllocError>
    ensures { IfOk result (λ text. text ≡ foreign_said columns.now parent.now parents.now rest.now) }
{
    let mut out = String::from_str(alloc, "FOREIGN KEY ")?;
    put_names(alloc, columns.as_slice(), &mut out)?;
    put_parent(alloc, parent, parents, rest, &mut out)?;
    Ok(text_of(out))
}

/// The definition of a constraint of a table.
pub(crate) fn constraint_text(alloc: Global, constraint: &Constraint) -> Result<Text, AllocError>
    ensures { IfOk result (λ text. text ≡ constraint_text constraint.now) }
{
    match (constraint.kind, &constraint.parent) {
        (ConstraintKind::Primary, _) => {
            key_text(alloc, "PRIMARY KEY ", &constraint.columns, &constraint.text)
        }
        (ConstraintKind::Unique, _) => {
            key_text(alloc, "UNIQUE ", &constraint.columns, &constraint.text)
        }
        (ConstraintKind::Foreign, Some((parent, parents))) => {
            foreign_text(
                alloc,
                &constraint.columns,
                parent,
                parents,
                &constraint.text,
            )
        }
        (ConstraintKind::Foreign, None) => Ok(text_of(String::new(alloc))),
        (ConstraintKind::Check, _) => check_text(alloc, &constraint.text),
    }
}

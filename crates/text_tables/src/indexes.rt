//! The conditions of pg_index.
ghost use Rattle.std.specs.Prelude.{◌≡◌, Some, IfOk};
ghost use Rattle.std.specs.List.{list_all};
ghost use Rattle.cat_book.specs.Leads.{has_column};
ghost use Rattle.cat_model.specs.KeyEffects.{index_path};
ghost use Rattle.cat_names.specs.Kinds.{is_table, is_index};
ghost use Rattle.text_tables.specs.Agreeing.{is_path};
ghost use Rattle.text_tables.specs.Indexes.{are_columns, has_its_columns, is_unique_said, agrees, agrees_if_said, is_there, index_rules};

use crate::agreeing::is_path;
use cat_book::{Book, Conditions, RowKeys, Unmet};
use cat_model::{Items, QName};
use cat_names::RelationKind;
use cat_rows::IndexRow;
use copy_text::Name;
use row_texts::{IndexText, are_distinct, index_said};
use std::alloc::{AllocError, Global};
use stmt_refs::plain_columns;

/// Whether there is a relation, and it is a table.
pub(crate) fn is_table(kind: Option<RelationKind>) -> bool
    ensures { result ≡ is_table kind }
{
    matches!(kind, Some(RelationKind::Table))
}

fn is_index(kind: Option<RelationKind>) -> bool
    ensures { result ≡ is_index kind }
{
    matches!(kind, Some(RelationKind::Index))
}

// Whether a relation has columns of these names.
fn has_columns(book: &Book<'_>, relation: u32, names: &[Name]) -> Result<bool, AllocError>
    ensures { IfOk result (λ have. have ≡ list_all (has_column book.now relation) names.now) }
{
    for name in names {
        if !book.has_column(relation, name)? {
            return Ok(false);
        }
    }
    Ok(true)
}

/// Whether a relation has columns of these names, and no name stands twice.
pub fn are_columns(
    alloc: Global,
    book: &Book<'_>,
    table: u32,
    names: &[Name],
) -> Result<bool, AllocError>
    ensures { IfOk result (λ are. are ≡ are_columns book.now table (Some names.now)) }
{
    let there = has_columns(book, table, names)?;
    let distinct = are_distinct(alloc, names)?;
    Ok(there && distinct)
}

// The same of plain columns, where there are such.
fn are_plain_columns(
    alloc: Global,
    book: &Book<'_>,
    table: u32,
    names: &Option<Items<Name>>,
) -> Result<bool, AllocError>
    ensures { IfOk result (λ are. are ≡ are_columns book.now table names.now) }
{
    match names {
        Some(names) => are_columns(alloc, book, table, names.as_slice()),
        None => Ok(true),
    }
}

// Whether the plain columns of a unique index are there and distinct.
fn has_its_columns(
    alloc: Global,
    book: &Book<'_>,
    table: u32,
    said: &IndexText,
) -> Result<bool, AllocError>
    ensures { IfOk result (λ has. has ≡ has_its_columns book.now table said.now) }
{
    if !said.unique {
        return Ok(true);
    }
    let names = plain_columns(alloc, said.rest.as_bytes())?;
    are_plain_columns(alloc, book, table, &names)
}

// Whether the text says UNIQUE exactly where the row does.
fn is_unique_said(row: bool, said: bool) -> bool
    ensures { result ≡ is_unique_said row said }
{
    if row { said } else { !said }
}

/// Whether there is a path, and it is that of an index of this name of the table.
pub fn is_index_path(path: &Option<QName>, table: &QName, name: &Name) -> bool
    ensures { result ≡ is_path path.now (index_path table.now name.now) }
{
    match path {
        Some(path) => path.schema == table.schema && path.name == *name,
        None => false,
    }
}

// Whether what a text says agrees with the rows.
fn agrees(
    alloc: Global,
    book: &Book<'_>,
    row: &IndexRow,
    said: &IndexText,
) -> Result<bool, AllocError>
    ensures { IfOk result (λ is. is ≡ agrees book.now row.now said.now) }
{
    let table = book.class_path_of(row.indrelid)?;
    let index = book.class_path_of(row.indexrelid)?;
    let has_columns = has_its_columns(alloc, book, row.indrelid, said)?;
    Ok(
        is_unique_said(row.indisunique, said.unique)
            && is_path(&table, &said.table)
            && is_index_path(&index, &said.table, &said.name)
            && has_columns,
    )
}

fn agrees_if_said(
    alloc: Global,
    book: &Book<'_>,
    row: &IndexRow,
    said: &Option<IndexText>,
) -> Result<bool, AllocError>
    ensures { IfOk result (λ is. is ≡ agrees_if_said book.now row.now said.now) }
{
    match said {
        Some(said) => agrees(alloc, book, row, said),
        None => Ok(false),
    }
}

// Whether an index and its table are there.
fn is_there(book: &Book<'_>, row: &IndexRow) -> bool
    ensures { result ≡ is_there book.now row.now }
{
    is_index(book.kind_of(row.indexrelid)) && is_table(book.kind_of(row.indrelid))
}

/// pg_index: an index stands once and is there with its table, and isn't that of a primary key or a unique constraint; the
/// text is a CREATE INDEX without a semicolon that names the index and its table, in the table's schema, says UNIQUE exactly
/// where the row does, and has, where it is unique and over plain columns, columns of the table, each once.
/// <https://www.postgresql.org/docs/16/catalog-pg-index.html>
pub struct Indexes {}

impl<'b> Conditions<Book<'b>> for Indexes {
    type Row = IndexRow;

    ghost rules = { index_rules };

    fn keys(row: &IndexRow) -> RowKeys<'_>
        ensures { result ≡ index_rules.keys row.now }
    {
        RowKeys {
            oid: Some(row.indexrelid),
            name: None,
            place: None,
            is_marked: false,
        }
    }

    fn unmet(alloc: Global, book: &Book<'b>, row: &IndexRow) -> Result<Unmet, AllocError> {
        let said = index_said(alloc, row.indexdef.as_bytes())?;
        let agrees = agrees_if_said(alloc, book, row, &said)?;
        Ok(Unmet {
            dangles: !is_there(book, row),
            is_bad: book.is_of_key(row.indexrelid) || !agrees,
            left_out: None,
        })
    }

    fn needed(_book: &Book<'b>) -> bool {
        true
    }
}

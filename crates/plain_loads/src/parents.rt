//! The texts of the tables that a table refers to.
ghost use Rattle.std.specs.Prelude.{◌≡◌, true, false, Some, IfOk};
ghost use Rattle.std.specs.FinMap.{get};
ghost use Rattle.std.specs.Option.{option_copied, option_map};
ghost use Rattle.cat_model.specs.declared.key.Key.TheVariants as key;
ghost use Rattle.cat_model.specs.KeyEffects.{columns_of};
ghost use Rattle.cat_model.specs.Trees.{same_path};
ghost use Rattle.table_rows.specs.Values.{text_of};
ghost use Rattle.cat_names.specs.Kinds.{relation_kind, is_table};
ghost use Rattle.rows_named.specs.Tables.{at_path, is_table_at, first_table};
ghost use Rattle.plain_loads.specs.Meeting.{parent_text, text_at};

use cat_book::Book;
use cat_model::{Column, Key, QName, Value};
use cat_names::{DataSet, RelationKind, relation_kind};
use cat_rows::{ClassRow, NamespaceRow};
use eng_map::NamedMap;
use eng_steps::let_go_key;
use std::alloc::AllocError;

// Whether a name in a schema is this path.
fn is_path(path: &QName, schema: Option<&NamespaceRow>, row: &ClassRow) -> bool
    ensures { result ≡ at_path path.now (option_map (λ s. record { schema = s.nspname; name = row.now.relname }) (option_copied schema.entry)) }
{
    match schema {
        Some(schema) => path.schema == schema.nspname && path.name == row.relname,
        None => false,
    }
}

fn is_table(row: &ClassRow) -> bool
    ensures { result ≡ is_table (Some (relation_kind row.now.relkind)) }
{
    matches!(relation_kind(row.relkind), RelationKind::Table)
}

// Whether a row of pg_class is the table of a path.
fn is_table_at(book: &Book<'_>, path: &QName, row: &ClassRow) -> bool
    ensures { result ≡ is_table_at book.now path.now row.now }
{
    if path.name != row.relname {
        return false;
    }
    is_path(path, book.schema_of(row.relnamespace), row) && is_table(row)
}

// The oid of the first table of a path.
pub(crate) fn first_table(book: &Book<'_>, path: &QName) -> Option<u32>
    ensures { result ≡ first_table book.now path.now book.now.pg_class }
{
    first_among(book, path, book.tables().pg_class.as_slice())
}

fn first_among(book: &Book<'_>, path: &QName, classes: &[ClassRow]) -> Option<u32>
    ensures { result ≡ first_table book.now path.now classes.now }
{
    for i in 0..classes.len() {
        if is_table_at(book, path, &classes[i]) {
            return Some(classes[i].oid);
        }
    }
    None
}

/// The text that was put for a table; none is the empty text.
pub(crate) fn text_of(rows: &DataSet, table: u32) -> &[u8]
    ensures { result.now ≡ text_of rows.now table }
{
    rows.text(table).unwrap_or(&[])
}

fn text_at(rows: &DataSet, table: Option<u32>) -> &[u8]
    ensures { result.now ≡ text_at rows.now table }
{
    match table {
        Some(table) => text_of(rows, table),
        None => &[],
    }
}

/// The text of the rows that a parent of the table `q` has; the table's own where it is its own parent.
pub(crate) fn parent_text<'t>(
    book: &Book<'_>,
    rows: &'t DataSet,
    q: &QName,
    text: &'t [u8],
    parent: &QName,
) -> &'t [u8]
    ensures { result.now ≡ parent_text book.now rows.now q.now text.now parent.now }
{
    if q == parent {
        text
    } else {
        text_at(rows, first_table(book, parent))
    }
}

fn columns_of(found: Option<&Value>) -> &[Column]
    ensures { result.now ≡ columns_of (option_copied found.entry) }
{
    match found {
        Some(Value::Table(columns)) => columns.as_slice(),
        _ => &[],
    }
}

/// The columns of a table; none where it isn't there. The error is that memory ran out.
pub(crate) fn columns_under<'m>(named: &'m NamedMap, q: &QName) -> Result<&'m [Column], AllocError>
    ensures { IfOk result (λ columns. columns.now ≡ columns_of (get named.now (key.Rel q.now))) }
{
    let key = Key::Rel(q.clone()?);
    let columns = columns_of(named.get(&key));
    let_go_key(key);
    Ok(columns)
}

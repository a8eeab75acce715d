//! What the rows of pg_class give: tables with their rows, views, the owners of sequences, and indexes as relations.
ghost use Rattle.std.specs.Prelude.{◌≡◌, [], ◌∷◌, ◌++◌, OnOk};
ghost use Rattle.std.specs.List.{flat_map};
ghost use Rattle.cat_model.specs.declared.key.Key.TheVariants as key;
ghost use Rattle.cat_model.specs.declared.value.Value.TheVariants as value;
ghost use Rattle.cat_naming.specs.Relations.{columns_of, owned_entries, table_entries, view_entries, index_relation_entries, relation_entries, class_entries};
ghost use Rattle.table_rows.specs.Values.{text_of};
ghost use Rattle.cat_naming.specs.Texts.{rows_by_oid};

use crate::columns::columns_of;
use crate::entries::{push_grants, push_owner};
use cat_lookups::Lookups;
use cat_model::{Items, Key, Object, QName, TableRows, Value};
use cat_names::{DataSet, GrantKind, RelationKind, relation_kind};
use cat_rows::ClassRow;
use eng_map::{Entries, push_entry};
use std::alloc::{AllocError, Global};

// Adds an owner and grants.
fn push_owned(
    alloc: Global,
    entries: &mut Entries,
    lookups: &Lookups<'_>,
    kind: GrantKind,
    row: &ClassRow,
    path: &QName,
) -> Result<(), AllocError>
    ensures { OnOk result (entries.new.items ≡ entries.old.items ++ owned_entries lookups.now kind row.now path.now) }
{
    let Some(owner) = lookups.book().role_name(row.relowner) else {
        return Ok(());
    };
    push_owner(entries, Object::Relation(path.clone()?), owner)?;
    let object = Object::Relation(path.clone()?);
    push_grants(alloc, entries, kind, object, owner, &row.relacl)
}

// The text of a table's rows; none is the empty text.
fn text_of(rows: &DataSet, table: u32) -> &[u8]
    ensures { result.now ≡ text_of rows.now table }
{
    rows.text(table).unwrap_or(&[])
}

// Adds the columns of a table under its path.
fn push_columns(
    alloc: Global,
    entries: &mut Entries,
    lookups: &Lookups<'_>,
    table: u32,
    path: &QName,
) -> Result<(), AllocError>
    ensures { OnOk result (entries.new.items ≡ entries.old.items ++ (key.Rel path.now, value.Table (columns_of lookups.now table)) ∷ []) }
{
    let path = path.clone()?;
    let columns = Items::new(columns_of(alloc, lookups, table)?);
    push_entry(entries, Key::Rel(path), Value::Table(columns))
}

// Adds the rows of a table under its path.
fn push_rows(
    alloc: Global,
    entries: &mut Entries,
    rows: &DataSet,
    table: u32,
    path: &QName,
) -> Result<(), AllocError>
    ensures { OnOk result (entries.new.items ≡ entries.old.items ++ (key.Rows path.now, value.Rows (rows_by_oid rows.now table)) ∷ []) }
{
    let path = path.clone()?;
    let held = TableRows::read(alloc, text_of(rows, table))?;
    push_entry(entries, Key::Rows(path), Value::Rows(held))
}

// Adds a table with its rows.
fn push_table(
    alloc: Global,
    entries: &mut Entries,
    lookups: &Lookups<'_>,
    rows: &DataSet,
    row: &ClassRow,
    path: &QName,
) -> Result<(), AllocError>
    ensures { OnOk result (entries.new.items ≡ entries.old.items ++ table_entries lookups.now (rows_by_oid rows.now) row.now path.now) }
{
    push_columns(alloc, entries, lookups, row.oid, path)?;
    push_rows(alloc, entries, rows, row.oid, path)?;
    push_owned(alloc, entries, lookups, GrantKind::Table, row, path)
}

// Adds a view.
fn push_view(
    alloc: Global,
    entries: &mut Entries,
    lookups: &Lookups<'_>,
    row: &ClassRow,
    path: &QName,
) -> Result<(), AllocError>
    ensures { OnOk result (entries.new.items ≡ entries.old.items ++ view_entries lookups.now row.now path.now) }
{
    push_entry(entries, Key::Rel(path.clone()?), Value::View)?;
    push_owned(alloc, entries, lookups, GrantKind::Table, row, path)
}

// Adds an index as a relation, of its table.
fn push_index_relation(
    entries: &mut Entries,
    lookups: &Lookups<'_>,
    row: &ClassRow,
    path: &QName,
) -> Result<(), AllocError>
    ensures { OnOk result (entries.new.items ≡ entries.old.items ++ index_relation_entries lookups.now row.now path.now) }
{
    let Some(table) = lookups.table_of_index(row.oid) else {
        return Ok(());
    };
    let Some(table) = lookups.book().class_path_of(table)? else {
        return Ok(());
    };
    let path = path.clone()?;
    push_entry(entries, Key::Rel(path), Value::IndexOf(table))
}

// Adds a relation by its kind; what a sequence is stands in pg_sequence.
fn push_relation(
    alloc: Global,
    entries: &mut Entries,
    lookups: &Lookups<'_>,
    rows: &DataSet,
    row: &ClassRow,
    path: &QName,
) -> Result<(), AllocError>
    ensures { OnOk result (entries.new.items ≡ entries.old.items ++ relation_entries lookups.now (rows_by_oid rows.now) row.now path.now) }
{
    match relation_kind(row.relkind) {
        RelationKind::Table => push_table(alloc, entries, lookups, rows, row, path),
        RelationKind::View => push_view(alloc, entries, lookups, row, path),
        RelationKind::Sequence => {
            push_owned(alloc, entries, lookups, GrantKind::Sequence, row, path)
        }
        RelationKind::Index => push_index_relation(entries, lookups, row, path),
        RelationKind::Other(_) => Ok(()),
    }
}

// The same with its path.
fn push_class(
    alloc: Global,
    entries: &mut Entries,
    lookups: &Lookups<'_>,
    rows: &DataSet,
    row: &ClassRow,
) -> Result<(), AllocError>
    ensures { OnOk result (entries.new.items ≡ entries.old.items ++ class_entries lookups.now (rows_by_oid rows.now) row.now) }
{
    match lookups.book().class_path(row)? {
        Some(path) => push_relation(alloc, entries, lookups, rows, row, &path),
        None => Ok(()),
    }
}

/// Adds what the relations give.
pub(crate) fn add_classes(
    alloc: Global,
    entries: &mut Entries,
    lookups: &Lookups<'_>,
    texts: &DataSet,
    rows: &[ClassRow],
) -> Result<(), AllocError>
    ensures { OnOk result (entries.new.items ≡ entries.old.items ++ flat_map (class_entries lookups.now (rows_by_oid texts.now)) rows.now) }
{
    for row in rows {
        push_class(alloc, entries, lookups, texts, row)?;
    }
    Ok(())
}

//! The rows of columns of tables.
ghost use Rattle.std.specs.Prelude.{◌≡◌, true, map, OnOk, IfOk};
ghost use Rattle.std.specs.List.{AllByRecursion, flat_map};
ghost use Rattle.std.specs.Map.Iter.{deref_pair};
ghost use Rattle.cat_model.specs.declared.key.Key.{Key as TheKey};
ghost use Rattle.cat_model.specs.declared.value.Value.{Value as TheValue};
ghost use Rattle.cat_sound.specs.Itself.{IsTable, IsTyped, Itself};
ghost use Rattle.map_export.specs.Making.{AreSaid};
ghost use Rattle.object_export.specs.Relations.{IsColumnRow};
ghost use Rattle.object_loops.specs.Adding.{Adds};
ghost use Rattle.object_loops.specs.Oids.{with_numbers};
ghost use Rattle.object_export.specs.Parts.{columns_from, columns_in};
ghost use Rattle.sound_texts.specs.Grammar.{grammar};

use cat_model::{Column, Items, Key, QName, Value};
use cat_rows::{AttributeRow, Rows};
use cluster_loops::{named_type_oid, push, relation_oid};
use column_numbers::Numbers;
use object_ids::Ids;
use object_rows::column_row;
use std::alloc::{AllocError, Global};

// The row of the column at a place.
fn row_of(
    alloc: Global,
    ids: &Ids,
    numbers: &Numbers,
    table: &QName,
    columns: &[Column],
    place: usize,
    column: &Column,
) -> Result<AttributeRow, AllocError>
    ensures { IfOk result (λ row. grammar.type column.now.type_name ≡ true → IsColumnRow (with_numbers ids.now numbers.now) (record { table = table.now; columns = columns.now; place = place; column = column.now }) row) }
{
    let of = relation_oid(ids, table)?;
    let number = numbers.of(table, &column.name)?;
    let of_type = named_type_oid(ids, &column.type_name)?;
    Ok(column_row(alloc, of, number, of_type, column)?)
}

// Adds the rows of the columns of a table.
fn add_columns(
    alloc: Global,
    ids: &Ids,
    numbers: &Numbers,
    table: &QName,
    columns: &[Column],
    rows: &mut Rows<AttributeRow>,
) -> Result<(), AllocError>
    ensures { OnOk result (AllByRecursion (λ c. IsTyped grammar c.type_name c.resolved) columns.now → Adds (IsColumnRow (with_numbers ids.now numbers.now)) (columns_from table.now columns.now 0 columns.now) rows.old rows.new) }
{
    for place in 0..columns.len() {
        let column = &columns[place];
        push(
            rows,
            row_of(alloc, ids, numbers, table, columns, place, column)?,
        )?;
    }
    Ok(())
}

// Adds the rows of a table that is in order.
fn add_table(
    alloc: Global,
    ids: &Ids,
    numbers: &Numbers,
    table: &QName,
    columns: &Items<Column>,
    rows: &mut Rows<AttributeRow>,
) -> Result<(), AllocError>
    ensures { OnOk result (IsTable grammar columns.now → Adds (IsColumnRow (with_numbers ids.now numbers.now)) (columns_from table.now columns.now 0 columns.now) rows.old rows.new) }
{
    let list = columns.as_slice();
    add_columns(alloc, ids, numbers, table, list, rows)?;
    Ok(())
}

// Adds the rows of an entry, where it is of a table.
#[tactic(auto, using(crate::proofs::Passes::adds_none))]
fn add_entry(
    alloc: Global,
    ids: &Ids,
    numbers: &Numbers,
    key: &Key,
    value: &Value,
    rows: &mut Rows<AttributeRow>,
) -> Result<(), AllocError>
    ensures { OnOk result (Itself grammar key.now value.now → Adds (IsColumnRow (with_numbers ids.now numbers.now)) (columns_in (key.now, value.now)) rows.old rows.new) }
{
    match (key, value) {
        (Key::Rel(table), Value::Table(columns)) => {
            add_table(alloc, ids, numbers, table, columns, rows)
        }
        _ => Ok(()),
    }
}

/// The rows of pg_attribute, one of each column of the tables among the entries, in their order. The only error is want of
/// memory. See <https://www.postgresql.org/docs/16/catalog-pg-attribute.html>.
pub fn column_rows(
    alloc: Global,
    ids: &Ids,
    numbers: &Numbers,
    entries: &[(&Key, &Value)],
) -> Result<Rows<AttributeRow>, AllocError>
    ensures { IfOk result (λ rows. AllByRecursion (λ e. Itself grammar e.0 e.1) (map (deref_pair {K = TheKey} {X = TheValue}) entries.now) → AreSaid (IsColumnRow (with_numbers ids.now numbers.now)) (flat_map columns_in (map (deref_pair {K = TheKey} {X = TheValue}) entries.now)) rows) }
{
    let mut rows = Rows::new(alloc);
    for i in 0..entries.len() {
        let (key, value) = entries[i];
        add_entry(alloc, ids, numbers, key, value, &mut rows)?;
    }
    Ok(rows)
}

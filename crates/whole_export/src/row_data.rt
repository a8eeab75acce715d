//! The texts of the rows of tables.
ghost use Rattle.std.specs.Prelude.{◌≡◌, map, IfOk, OnOk};
ghost use Rattle.std.specs.FinMap.{empty, insert};
ghost use Rattle.std.specs.List.{AllByRecursion};
ghost use Rattle.std.specs.Map.Iter.{deref_pair};
ghost use Rattle.cat_model.specs.declared.key.Key.{Key as TheKey};
ghost use Rattle.cat_model.specs.declared.key.Key.TheVariants as key;
ghost use Rattle.cat_model.specs.declared.value.Value.{Value as TheValue};
ghost use Rattle.cat_model.specs.RowTexts.{rows_held};
ghost use Rattle.copy_text.specs.Rows.{spell_rows};
ghost use Rattle.entry_ids.specs.Ids.{of_keys};
ghost use Rattle.whole_export.specs.Data.{with_rows, with_all_rows, IsHeld};

use cat_model::{Key, QName, TableRows, Value};
use cat_names::DataSet;
use cluster_loops::relation_oid;
use object_ids::Ids;
use std::alloc::{AllocError, Global};

// The text of rows.
fn rows_text(alloc: Global, rows: &TableRows) -> Result<Vec<u8>, AllocError>
    ensures spelled { IfOk result (λ text. text.items ≡ spell_rows rows.now) }
    ensures held { OnOk result (rows_held (spell_rows rows.now) ≡ rows.now) }
{
    let mut text = Vec::new(alloc);
    text.extend_from_slice(rows.text())?;
    Ok(text)
}

// Adds the text of a table's rows.
fn put_rows(
    alloc: Global,
    ids: &Ids,
    table: &QName,
    rows: &TableRows,
    texts: &mut DataSet,
) -> Result<(), AllocError>
    ensures put { OnOk result (texts.new ≡ insert texts.old (of_keys ids.now (key.Rel table.now)) (spell_rows rows.now)) }
    ensures held { OnOk result (rows_held (spell_rows rows.now) ≡ rows.now) }
{
    let of = relation_oid(ids, table)?;
    let text = rows_text(alloc, rows)?;
    texts.put(of, text)
}

// Adds the text of an entry's rows, where it is of some.
fn put_entry(
    alloc: Global,
    ids: &Ids,
    key: &Key,
    value: &Value,
    texts: &mut DataSet,
) -> Result<(), AllocError>
    ensures put { OnOk result (texts.new ≡ with_rows ids.now (key.now, value.now) texts.old) }
    ensures held { OnOk result (IsHeld (key.now, value.now)) }
{
    match (key, value) {
        (Key::Rows(table), Value::Rows(rows)) => put_rows(alloc, ids, table, rows, texts),
        _ => Ok(()),
    }
}

/// The texts of the rows of all tables among the entries, by the tables' oids.
pub(crate) fn row_texts(
    alloc: Global,
    ids: &Ids,
    entries: &[(&Key, &Value)],
) -> Result<DataSet, AllocError>
    ensures texts { IfOk result (λ texts. texts ≡ with_all_rows ids.now (map (deref_pair {K = TheKey} {X = TheValue}) entries.now) empty) }
    ensures held { OnOk result (AllByRecursion IsHeld (map (deref_pair {K = TheKey} {X = TheValue}) entries.now)) }
{
    let mut texts = DataSet::new(alloc);
    for i in 0..entries.len() {
        let (key, value) = entries[i];
        put_entry(alloc, ids, key, value, &mut texts)?;
    }
    Ok(texts)
}

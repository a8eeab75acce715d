//! The rows of defaults of columns.
ghost use Rattle.std.specs.Prelude.{◌≡◌, true, map, IfOk};
ghost use Rattle.std.specs.List.{AllByRecursion, filter_map};
ghost use Rattle.std.specs.Map.Iter.{deref_pair};
ghost use Rattle.cat_model.specs.declared.key.Key.{Key as TheKey};
ghost use Rattle.cat_model.specs.declared.value.Value.{Value as TheValue};
ghost use Rattle.cat_sound.specs.Itself.{Itself};
ghost use Rattle.map_export.specs.Making.{IsRowOf, AreSaid};
ghost use Rattle.object_export.specs.Relations.{IsDefaultRow};
ghost use Rattle.object_loops.specs.Oids.{with_numbers};
ghost use Rattle.object_export.specs.Parts.{default_in};
ghost use Rattle.sound_texts.specs.Grammar.{grammar};

use cat_model::{Key, QName, Value};
use cat_rows::{AttrdefRow, Rows};
use cluster_loops::{default_oid, push_some, relation_oid};
use column_numbers::Numbers;
use copy_text::{Name, Text};
use object_ids::Ids;
use object_rows::default_row;
use std::alloc::{AllocError, Global};

// The row of the default of a column.
fn row_of(
    ids: &Ids,
    numbers: &Numbers,
    table: &QName,
    column: &Name,
    text: &Text,
) -> Result<AttrdefRow, AllocError>
    ensures { IfOk result (λ row. grammar.expression text.now ≡ true → IsDefaultRow (with_numbers ids.now numbers.now) (record { table = table.now; column = column.now; text = text.now }) row) }
{
    let own = default_oid(ids, table, column)?;
    let of = relation_oid(ids, table)?;
    let number = numbers.of(table, column)?;
    Ok(default_row(own, of, number, text)?)
}

// The row of an entry, where it is of a default.
fn entry_row(
    ids: &Ids,
    numbers: &Numbers,
    key: &Key,
    value: &Value,
) -> Result<Option<AttrdefRow>, AllocError>
    ensures { IfOk result (λ row. Itself grammar key.now value.now → IsRowOf (IsDefaultRow (with_numbers ids.now numbers.now)) (default_in (key.now, value.now)) row) }
{
    match (key, value) {
        (Key::Default(table, column), Value::DefaultText(text)) => {
            Ok(Some(row_of(ids, numbers, table, column, text)?))
        }
        _ => Ok(None),
    }
}

/// The rows of pg_attrdef, one of each default among the entries, in their order. The only error is want of memory. See
/// <https://www.postgresql.org/docs/16/catalog-pg-attrdef.html>.
pub fn default_rows(
    alloc: Global,
    ids: &Ids,
    numbers: &Numbers,
    entries: &[(&Key, &Value)],
) -> Result<Rows<AttrdefRow>, AllocError>
    ensures { IfOk result (λ rows. AllByRecursion (λ e. Itself grammar e.0 e.1) (map (deref_pair {K = TheKey} {X = TheValue}) entries.now) → AreSaid (IsDefaultRow (with_numbers ids.now numbers.now)) (filter_map default_in (map (deref_pair {K = TheKey} {X = TheValue}) entries.now)) rows) }
{
    let mut rows = Rows::new(alloc);
    for i in 0..entries.len() {
        let (key, value) = entries[i];
        push_some(&mut rows, entry_row(ids, numbers, key, value)?)?;
    }
    Ok(rows)
}

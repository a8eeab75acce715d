//! The rows of indexes.
ghost use Rattle.std.specs.Prelude.{◌≡◌, true, map, IfOk};
ghost use Rattle.std.specs.List.{AllByRecursion, filter_map};
ghost use Rattle.std.specs.Map.Iter.{deref_pair};
ghost use Rattle.cat_model.specs.declared.key.Key.{Key as TheKey};
ghost use Rattle.cat_model.specs.declared.value.Value.{Value as TheValue};
ghost use Rattle.cat_sound.specs.Itself.{Itself};
ghost use Rattle.cluster_loops.specs.Ids.{of_keys};
ghost use Rattle.map_export.specs.Making.{IsRowOf, AreSaid};
ghost use Rattle.object_export.specs.Relations.{IsIndexRow};
ghost use Rattle.object_export.specs.Parts.{index_in};
ghost use Rattle.sound_texts.specs.Grammar.{grammar};

use cat_model::{Index, Key, QName, Value};
use cat_rows::{IndexRow, Rows};
use cluster_loops::{index_oid, push_some, relation_oid};
use copy_text::Name;
use object_ids::Ids;
use object_rows::index_row;
use std::alloc::{AllocError, Global};

// The row of an index.
fn row_of(
    alloc: Global,
    ids: &Ids,
    table: &QName,
    name: &Name,
    index: &Index,
) -> Result<IndexRow, AllocError>
    ensures { IfOk result (λ row. grammar.index table.now name.now index.now ≡ true → IsIndexRow (of_keys ids.now) (record { table = table.now; name = name.now; index = index.now }) row) }
{
    let own = index_oid(ids, table, name)?;
    let of = relation_oid(ids, table)?;
    Ok(index_row(alloc, own, of, table, name, index)?)
}

// The row of an entry, where it is of an index.
fn entry_row(
    alloc: Global,
    ids: &Ids,
    key: &Key,
    value: &Value,
) -> Result<Option<IndexRow>, AllocError>
    ensures { IfOk result (λ row. Itself grammar key.now value.now → IsRowOf (IsIndexRow (of_keys ids.now)) (index_in (key.now, value.now)) row) }
{
    match (key, value) {
        (Key::Index(table, name), Value::Index(index)) => {
            Ok(Some(row_of(alloc, ids, table, name, index)?))
        }
        _ => Ok(None),
    }
}

/// The rows of pg_index, one of each index among the entries that stands for no constraint, in their order. The only error is
/// want of memory. See <https://www.postgresql.org/docs/16/catalog-pg-index.html>.
pub fn index_rows(
    alloc: Global,
    ids: &Ids,
    entries: &[(&Key, &Value)],
) -> Result<Rows<IndexRow>, AllocError>
    ensures { IfOk result (λ rows. AllByRecursion (λ e. Itself grammar e.0 e.1) (map (deref_pair {K = TheKey} {X = TheValue}) entries.now) → AreSaid (IsIndexRow (of_keys ids.now)) (filter_map index_in (map (deref_pair {K = TheKey} {X = TheValue}) entries.now)) rows) }
{
    let mut rows = Rows::new(alloc);
    for i in 0..entries.len() {
        let (key, value) = entries[i];
        push_some(&mut rows, entry_row(alloc, ids, key, value)?)?;
    }
    Ok(rows)
}

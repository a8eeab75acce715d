//! The rows of sequences.
ghost use Rattle.std.specs.Prelude.{◌≡◌, map, IfOk};
ghost use Rattle.std.specs.FinMap.{get};
ghost use Rattle.std.specs.List.{filter_map};
ghost use Rattle.std.specs.Map.Iter.{deref_pair};
ghost use Rattle.cat_model.specs.declared.key.Key.{Key as TheKey};
ghost use Rattle.cat_model.specs.declared.key.Key.TheVariants as key;
ghost use Rattle.cat_model.specs.declared.value.Value.{Value as TheValue};
ghost use Rattle.map_export.specs.Making.{IsRowOf, AreSaid};
ghost use Rattle.object_export.specs.Relations.{IsSequenceRow};
ghost use Rattle.object_loops.specs.Oids.{with_numbers};
ghost use Rattle.object_export.specs.Parts.{number_in, sequence_with, sequence_in};
ghost use Rattle.object_loops.specs.Owning.{owning_in, IsOwned, AreOwned};
ghost use Rattle.object_rows.specs.Places.{IsColumnPlace};

use crate::comments::column_place;
use crate::let_go::let_go_key;
use cat_model::{Key, QName, Sequence, Value};
use cat_rows::{Rows, SequenceRow};
use cluster_loops::{push_some, relation_oid};
use column_numbers::Numbers;
use eng_map::NamedMap;
use object_ids::Ids;
use object_rows::{ColumnPlace, sequence_row};
use std::alloc::{AllocError, Global};

fn number_under(named: &NamedMap, key: &Key) -> Option<(i64, bool)>
    ensures { result ≡ number_in (get named.now key.now) }
{
    match named.get(key) {
        Some(Value::SequenceValue(last, called)) => Some((*last, *called)),
        _ => None,
    }
}

// The value of a sequence, and whether it was given out.
fn number_of(named: &NamedMap, path: &QName) -> Result<Option<(i64, bool)>, AllocError>
    ensures { IfOk result (λ number. number ≡ number_in (get named.now (key.SeqVal path.now))) }
{
    let key = Key::SeqVal(path.clone()?);
    let number = number_under(named, &key);
    let_go_key(key);
    Ok(number)
}

fn owner_under(
    ids: &Ids,
    numbers: &Numbers,
    named: &NamedMap,
    key: &Key,
) -> Result<Option<ColumnPlace>, AllocError>
    ensures { IfOk result (λ at. IsRowOf (λ c at. IsColumnPlace (with_numbers ids.now numbers.now) c.0 c.1 at) (owning_in (get named.now key.now)) at) }
{
    match named.get(key) {
        Some(Value::OwnedBy(table, column)) => {
            Ok(Some(column_place(ids, numbers, table, column)?))
        }
        _ => Ok(None),
    }
}

// The column that owns a sequence.
fn owner_of(
    ids: &Ids,
    numbers: &Numbers,
    named: &NamedMap,
    path: &QName,
) -> Result<Option<ColumnPlace>, AllocError>
    ensures { IfOk result (λ at. IsRowOf (λ c at. IsColumnPlace (with_numbers ids.now numbers.now) c.0 c.1 at) (owning_in (get named.now (key.OwnedBy path.now))) at) }
{
    let key = Key::OwnedBy(path.clone()?);
    let owner = owner_under(ids, numbers, named, &key);
    let_go_key(key);
    owner
}

// The row of a sequence that has this value.
fn row_of(
    alloc: Global,
    ids: &Ids,
    numbers: &Numbers,
    named: &NamedMap,
    path: &QName,
    sequence: &Sequence,
    number: (i64, bool),
) -> Result<SequenceRow, AllocError>
    ensures { IfOk result (λ row. IsOwned (get named.now (key.OwnedBy path.now)) → IsSequenceRow named.now (with_numbers ids.now numbers.now) (record { path = path.now; sequence = sequence.now; last = number.0; called = number.1 }) row) }
{
    let (last, called) = number;
    let own = relation_oid(ids, path)?;
    let owner = owner_of(ids, numbers, named, path)?;
    Ok(sequence_row(alloc, own, sequence, last, called, owner)?)
}

// The row of a path, where a sequence with a value stands under it.
fn named_sequence(
    alloc: Global,
    ids: &Ids,
    numbers: &Numbers,
    named: &NamedMap,
    path: &QName,
    sequence: &Sequence,
) -> Result<Option<SequenceRow>, AllocError>
    ensures { IfOk result (λ row. AreOwned named.now → IsRowOf (IsSequenceRow named.now (with_numbers ids.now numbers.now)) (sequence_with path.now sequence.now (get named.now (key.SeqVal path.now))) row) }
{
    match number_of(named, path)? {
        Some(number) => Ok(Some(row_of(alloc, ids, numbers, named, path, sequence, number)?)),
        None => Ok(None),
    }
}

// The row of an entry, where it is of a sequence.
fn entry_row(
    alloc: Global,
    ids: &Ids,
    numbers: &Numbers,
    named: &NamedMap,
    key: &Key,
    value: &Value,
) -> Result<Option<SequenceRow>, AllocError>
    ensures { IfOk result (λ row. AreOwned named.now → IsRowOf (IsSequenceRow named.now (with_numbers ids.now numbers.now)) (sequence_in named.now (key.now, value.now)) row) }
{
    match (key, value) {
        (Key::Rel(path), Value::Sequence(sequence)) => {
            named_sequence(alloc, ids, numbers, named, path, sequence)
        }
        _ => Ok(None),
    }
}

/// The rows of pg_sequence, one of each sequence among the entries that has a value, in their order. The only error is want of
/// memory. See <https://www.postgresql.org/docs/16/catalog-pg-sequence.html>.
pub fn sequence_rows(
    alloc: Global,
    ids: &Ids,
    numbers: &Numbers,
    named: &NamedMap,
    entries: &[(&Key, &Value)],
) -> Result<Rows<SequenceRow>, AllocError>
    ensures { IfOk result (λ rows. AreOwned named.now → AreSaid (IsSequenceRow named.now (with_numbers ids.now numbers.now)) (filter_map (sequence_in named.now) (map (deref_pair {K = TheKey} {X = TheValue}) entries.now)) rows) }
{
    let mut rows = Rows::new(alloc);
    for i in 0..entries.len() {
        let (key, value) = entries[i];
        push_some(
            &mut rows,
            entry_row(alloc, ids, numbers, named, key, value)?,
        )?;
    }
    Ok(rows)
}

//! The rows of comments.
ghost use Rattle.std.specs.Prelude.{◌≡◌, true, false, Some, map, IfOk, MatchOption};
ghost use Rattle.std.specs.List.{AllByRecursion, filter_map};
ghost use Rattle.std.specs.Map.Iter.{deref_pair};
ghost use Rattle.cat_model.specs.declared.key.Key.{Key as TheKey};
ghost use Rattle.cat_model.specs.declared.value.Value.{Value as TheValue};
ghost use Rattle.cat_sound.specs.Itself.{has_comment, Itself};
ghost use Rattle.map_export.specs.Making.{IsRowOf, AreSaid};
ghost use Rattle.object_export.specs.Constraints.{IsCommentRow};
ghost use Rattle.object_loops.specs.Oids.{with_numbers};
ghost use Rattle.object_export.specs.Parts.{comment_in};
ghost use Rattle.object_rows.specs.Places.{IsColumnPlace, IsPlacedOn};
ghost use Rattle.sound_texts.specs.Grammar.{grammar};

use cat_model::{Key, Object, QName, Value};
use cat_rows::{DescriptionRow, Rows};
use cluster_loops::{constraint_oid, push_some, relation_oid, schema_oid, type_oid};
use column_numbers::Numbers;
use copy_text::{Name, Text};
use object_ids::Ids;
use object_rows::{ColumnPlace, Place, comment_row};
use std::alloc::{AllocError, Global};

/// A column, by the oid of its table and its number.
pub(crate) fn column_place(
    ids: &Ids,
    numbers: &Numbers,
    table: &QName,
    column: &Name,
) -> Result<ColumnPlace, AllocError>
    ensures { IfOk result (λ at. IsColumnPlace (with_numbers ids.now numbers.now) table.now column.now at) }
{
    let relation = relation_oid(ids, table)?;
    let number = numbers.of(table, column)?;
    Ok(ColumnPlace { relation, number })
}

// What a comment is on; `None` for a database, whose comments are kept elsewhere.
fn place_of(ids: &Ids, numbers: &Numbers, object: &Object) -> Result<Option<Place>, AllocError>
    ensures { IfOk result (λ place. MatchOption place (has_comment object.now ≡ false) (λ at. IsPlacedOn (with_numbers ids.now numbers.now) object.now at)) }
{
    match object {
        Object::Schema(name) => Ok(Some(Place::Schema(schema_oid(ids, name)?))),
        Object::Type(path) => Ok(Some(Place::Type(type_oid(ids, path)?))),
        Object::Relation(path) => Ok(Some(Place::Relation(relation_oid(ids, path)?))),
        Object::Column(table, column) => {
            Ok(Some(Place::Column(column_place(ids, numbers, table, column)?)))
        }
        Object::Constraint(table, name) => {
            Ok(Some(Place::Constraint(constraint_oid(ids, table, name)?)))
        }
        Object::Database(_) => Ok(None),
    }
}

// The row of a comment on an object, where that may have one.
fn row_of(
    ids: &Ids,
    numbers: &Numbers,
    object: &Object,
    text: &Text,
) -> Result<Option<DescriptionRow>, AllocError>
    ensures { IfOk result (λ row. has_comment object.now ≡ true → IsRowOf (IsCommentRow (with_numbers ids.now numbers.now)) (Some (record { object = object.now; text = text.now })) row) }
{
    match place_of(ids, numbers, object)? {
        Some(place) => Ok(Some(comment_row(place, text)?)),
        None => Ok(None),
    }
}

// The row of an entry, where it is of a comment.
fn entry_row(
    ids: &Ids,
    numbers: &Numbers,
    key: &Key,
    value: &Value,
) -> Result<Option<DescriptionRow>, AllocError>
    ensures { IfOk result (λ row. Itself grammar key.now value.now → IsRowOf (IsCommentRow (with_numbers ids.now numbers.now)) (comment_in (key.now, value.now)) row) }
{
    match (key, value) {
        (Key::Comment(object), Value::Comment(text)) => row_of(ids, numbers, object, text),
        _ => Ok(None),
    }
}

/// The rows of pg_description, one of each comment among the entries, in their order. The only error is want of memory. See
/// <https://www.postgresql.org/docs/16/catalog-pg-description.html>.
pub fn comment_rows(
    alloc: Global,
    ids: &Ids,
    numbers: &Numbers,
    entries: &[(&Key, &Value)],
) -> Result<Rows<DescriptionRow>, AllocError>
    ensures { IfOk result (λ rows. AllByRecursion (λ e. Itself grammar e.0 e.1) (map (deref_pair {K = TheKey} {X = TheValue}) entries.now) → AreSaid (IsCommentRow (with_numbers ids.now numbers.now)) (filter_map comment_in (map (deref_pair {K = TheKey} {X = TheValue}) entries.now)) rows) }
{
    let mut rows = Rows::new(alloc);
    for i in 0..entries.len() {
        let (key, value) = entries[i];
        push_some(&mut rows, entry_row(ids, numbers, key, value)?)?;
    }
    Ok(rows)
}

//! The rows of bodies of views.
ghost use Rattle.std.specs.Prelude.{◌≡◌, true, map, IfOk};
ghost use Rattle.std.specs.List.{AllByRecursion, filter_map};
ghost use Rattle.std.specs.Map.Iter.{deref_pair};
ghost use Rattle.cat_model.specs.declared.key.Key.{Key as TheKey};
ghost use Rattle.cat_model.specs.declared.value.Value.{Value as TheValue};
ghost use Rattle.cat_sound.specs.Itself.{Itself};
ghost use Rattle.cluster_loops.specs.Ids.{of_keys};
ghost use Rattle.map_export.specs.Making.{IsRowOf, AreSaid};
ghost use Rattle.object_export.specs.Relations.{IsBodyRow};
ghost use Rattle.object_export.specs.Parts.{body_in};
ghost use Rattle.sound_texts.specs.Grammar.{grammar};

use cat_model::{Key, QName, Value};
use cat_rows::{RewriteRow, Rows};
use cluster_loops::{body_oid, push_some, relation_oid};
use copy_text::Text;
use object_ids::Ids;
use object_rows::body_row;
use std::alloc::{AllocError, Global};

// The row of the body of a view.
fn row_of(alloc: Global, ids: &Ids, view: &QName, body: &Text) -> Result<RewriteRow, AllocError>
    ensures { IfOk result (λ row. grammar.body body.now ≡ true → IsBodyRow (of_keys ids.now) (record { view = view.now; body = body.now }) row) }
{
    let own = body_oid(ids, view)?;
    let of = relation_oid(ids, view)?;
    Ok(body_row(alloc, own, of, body)?)
}

// The row of an entry, where it is of a body.
fn entry_row(
    alloc: Global,
    ids: &Ids,
    key: &Key,
    value: &Value,
) -> Result<Option<RewriteRow>, AllocError>
    ensures { IfOk result (λ row. Itself grammar key.now value.now → IsRowOf (IsBodyRow (of_keys ids.now)) (body_in (key.now, value.now)) row) }
{
    match (key, value) {
        (Key::Body(view), Value::Body(body)) => Ok(Some(row_of(alloc, ids, view, body)?)),
        _ => Ok(None),
    }
}

/// The rows of pg_rewrite, one of each body among the entries, in their order. The only error is want of memory. See
/// <https://www.postgresql.org/docs/16/catalog-pg-rewrite.html>.
pub fn body_rows(
    alloc: Global,
    ids: &Ids,
    entries: &[(&Key, &Value)],
) -> Result<Rows<RewriteRow>, AllocError>
    ensures { IfOk result (λ rows. AllByRecursion (λ e. Itself grammar e.0 e.1) (map (deref_pair {K = TheKey} {X = TheValue}) entries.now) → AreSaid (IsBodyRow (of_keys ids.now)) (filter_map body_in (map (deref_pair {K = TheKey} {X = TheValue}) entries.now)) rows) }
{
    let mut rows = Rows::new(alloc);
    for i in 0..entries.len() {
        let (key, value) = entries[i];
        push_some(&mut rows, entry_row(alloc, ids, key, value)?)?;
    }
    Ok(rows)
}

//! The rows of labels of enums.
ghost use Rattle.std.specs.Prelude.{◌≡◌, ◌++◌, ◌∷◌, [], ◌+◌, ◌<◌, ◌^◌, ℤ, pos, map, OnOk, IfOk};
ghost use Rattle.std.specs.List.{flat_map};
ghost use Rattle.std.specs.Map.Iter.{deref_pair};
ghost use Rattle.cat_model.specs.declared.key.Key.{Key as TheKey};
ghost use Rattle.cat_model.specs.declared.object.QName.{QName as ThePath};
ghost use Rattle.cat_model.specs.declared.value.Value.{Value as TheValue};
ghost use Rattle.cat_model.specs.Values.{Bytes};
ghost use Rattle.cluster_loops.specs.Ids.{oids_of};
ghost use Rattle.map_export.specs.Making.{AreSaid};
ghost use Rattle.object_export.specs.Types.{label_row};
ghost use Rattle.object_loops.specs.Adding.{Adds};
ghost use Rattle.object_export.specs.Parts.{labels_from, labels_in};

use cat_model::{Items, Key, QName, Value};
use cat_rows::{EnumRow, Rows};
use cluster_loops::{label_oid, push, type_oid};
use copy_text::Text;
use object_ids::Ids;
use object_rows::label_row;
use std::alloc::{AllocError, Global};

// The place, counted from 1.
fn position(place: usize) -> i64
    requires { place + 1 < 2 ^ 63 }
    ensures { result ≡ pos (place + 1) }
{
    place as i64 + 1
}

// The row of the label at a place, counted from 0.
fn row_of(
    ids: &Ids,
    path: &QName,
    labels: &[Text],
    place: usize,
    label: &Text,
) -> Result<EnumRow, AllocError>
    requires { place + 1 < 2 ^ 63 }
    ensures { IfOk result (λ row. (number : ThePath → Bytes → ℤ) → row ≡ label_row (oids_of ids.now number) (record { path = path.now; labels = labels.now; place = place; label = label.now })) }
{
    let own = label_oid(ids, path, place)?;
    let of = type_oid(ids, path)?;
    let number = position(place);
    Ok(label_row(own, of, number, label)?)
}

// Adds the rows of the labels of an enum.
fn add_labels(
    ids: &Ids,
    path: &QName,
    labels: &[Text],
    rows: &mut Rows<EnumRow>,
) -> Result<(), AllocError>
    ensures { OnOk result ((number : ThePath → Bytes → ℤ) → Adds (λ l row. row ≡ label_row (oids_of ids.now number) l) (labels_from path.now labels.now 0 labels.now) rows.old rows.new) }
{
    for place in 0..labels.len() {
        push(rows, row_of(ids, path, labels, place, &labels[place])?)?;
    }
    Ok(())
}

// Adds the rows of an enum.
fn add_enum(
    ids: &Ids,
    path: &QName,
    labels: &Items<Text>,
    rows: &mut Rows<EnumRow>,
) -> Result<(), AllocError>
    ensures { OnOk result ((number : ThePath → Bytes → ℤ) → Adds (λ l row. row ≡ label_row (oids_of ids.now number) l) (labels_from path.now labels.now 0 labels.now) rows.old rows.new) }
{
    let list = labels.as_slice();
    add_labels(ids, path, list, rows)?;
    Ok(())
}

// Adds the rows of an entry, where it is of an enum.
#[tactic(auto, using(crate::proofs::Passes::adds_none))]
fn add_entry(
    ids: &Ids,
    key: &Key,
    value: &Value,
    rows: &mut Rows<EnumRow>,
) -> Result<(), AllocError>
    ensures { OnOk result ((number : ThePath → Bytes → ℤ) → Adds (λ l row. row ≡ label_row (oids_of ids.now number) l) (labels_in (key.now, value.now)) rows.old rows.new) }
{
    match (key, value) {
        (Key::UserType(path), Value::Enum(labels)) => { add_enum(ids, path, labels, rows) }
        _ => Ok(()),
    }
}

/// The rows of pg_enum, one of each label of the enums among the entries, in their order. The only error is want of memory. See
/// <https://www.postgresql.org/docs/16/catalog-pg-enum.html>.
pub fn label_rows(
    alloc: Global,
    ids: &Ids,
    entries: &[(&Key, &Value)],
) -> Result<Rows<EnumRow>, AllocError>
    ensures { IfOk result (λ rows. (number : ThePath → Bytes → ℤ) → AreSaid (λ l row. row ≡ label_row (oids_of ids.now number) l) (flat_map labels_in (map (deref_pair {K = TheKey} {X = TheValue}) entries.now)) rows) }
{
    let mut rows = Rows::new(alloc);
    for i in 0..entries.len() {
        let (key, value) = entries[i];
        add_entry(ids, key, value, &mut rows)?;
    }
    Ok(rows)
}

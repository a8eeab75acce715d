//! What has oids of its own of what entries say.
ghost use Rattle.std.specs.Prelude.{◌≡◌, [], ◌++◌, ◌∷◌, map, OnOk, IfOk};
ghost use Rattle.std.specs.FinMap.{entries};
ghost use Rattle.std.specs.List.{flat_map};
ghost use Rattle.std.specs.Map.Iter.{deref_pair};
ghost use Rattle.cat_model.specs.declared.key.Key.{Key as TheKey};
ghost use Rattle.cat_model.specs.declared.value.Value.{Value as TheValue};
ghost use Rattle.named_tables.specs.Oids.{has_oid};
ghost use Rattle.object_ids.specs.Slots.{check};
ghost use Rattle.entry_ids.specs.Entries.{object_slots, check_slots, label_slots, labels_from, slots_of};

use cat_model::{Domain, Key, QName, Value};
use copy_text::Text;
use object_ids::{Slot, check_slot, label_slot, object_slot};
use std::alloc::{AllocError, Global};

// Whether the key's object has an oid.
fn has_oid(key: &Key) -> bool
    ensures { result ≡ has_oid key.now }
{
    match key {
        Key::Role(_) => true,
        Key::Member(..) => true,
        Key::Schema(_) => true,
        Key::UserType(_) => true,
        Key::Rel(_) => true,
        Key::Default(..) => true,
        Key::Con(..) => true,
        Key::Body(_) => true,
        Key::Database(_) => true,
        _ => false,
    }
}

// Adds one.
fn push(slots: &mut Vec<Slot>, slot: Slot) -> Result<(), AllocError>
    ensures { OnOk result (slots.new.items ≡ slots.old.items ++ slot ∷ []) }
{
    slots.push(slot)?;
    Ok(())
}

fn push_object(slots: &mut Vec<Slot>, key: &Key) -> Result<(), AllocError>
    ensures { OnOk result (slots.new.items ≡ slots.old.items ++ object_slots key.now) }
{
    if has_oid(key) {
        push(slots, object_slot(key.clone()?))?;
    }
    Ok(())
}

fn push_checks(slots: &mut Vec<Slot>, path: &QName, domain: &Domain) -> Result<(), AllocError>
    ensures { OnOk result (slots.new.items ≡ slots.old.items ++ map (λ c. check path.now c.0) (entries domain.now.checks)) }
{
    for (name, _) in domain.checks.iter() {
        push(slots, check_slot(path, name)?)?;
    }
    Ok(())
}

fn push_labels(slots: &mut Vec<Slot>, path: &QName, labels: &[Text]) -> Result<(), AllocError>
    ensures { OnOk result (slots.new.items ≡ slots.old.items ++ labels_from path.now 0 labels.now) }
{
    for place in 0..labels.len() {
        push(slots, label_slot(path, place)?)?;
    }
    Ok(())
}

// The object of an entry's key, and the checks of a domain.
fn push_object_and_checks(slots: &mut Vec<Slot>, key: &Key, value: &Value) -> Result<(), AllocError>
    ensures { OnOk result (slots.new.items ≡ slots.old.items ++ (object_slots key.now ++ check_slots (key.now, value.now))) }
{
    push_object(slots, key)?;
    match (key, value) {
        (Key::UserType(path), Value::Domain(domain)) => push_checks(slots, path, domain),
        _ => Ok(()),
    }
}

// The labels of an entry's enum.
fn push_enum(slots: &mut Vec<Slot>, key: &Key, value: &Value) -> Result<(), AllocError>
    ensures { OnOk result (slots.new.items ≡ slots.old.items ++ label_slots (key.now, value.now)) }
{
    match (key, value) {
        (Key::UserType(path), Value::Enum(labels)) => push_labels(slots, path, labels.as_slice()),
        _ => Ok(()),
    }
}

fn push_all_objects(slots: &mut Vec<Slot>, entries: &[(&Key, &Value)]) -> Result<(), AllocError>
    ensures { OnOk result (slots.new.items ≡ slots.old.items ++ flat_map (λ e. object_slots e.0 ++ check_slots e) (map (deref_pair {K = TheKey} {X = TheValue}) entries.now)) }
{
    for i in 0..entries.len() {
        let (key, value) = entries[i];
        push_object_and_checks(slots, key, value)?;
    }
    Ok(())
}

fn push_all_labels(slots: &mut Vec<Slot>, entries: &[(&Key, &Value)]) -> Result<(), AllocError>
    ensures { OnOk result (slots.new.items ≡ slots.old.items ++ flat_map label_slots (map (deref_pair {K = TheKey} {X = TheValue}) entries.now)) }
{
    for i in 0..entries.len() {
        let (key, value) = entries[i];
        push_enum(slots, key, value)?;
    }
    Ok(())
}

/// What has oids of its own of what these entries say, in their order: objects and checks, and then labels.
pub(crate) fn slots_of(alloc: Global, entries: &[(&Key, &Value)]) -> Result<Vec<Slot>, AllocError>
    ensures { IfOk result (λ slots. slots.items ≡ slots_of (map (deref_pair {K = TheKey} {X = TheValue}) entries.now)) }
{
    let mut slots = Vec::new(alloc);
    push_all_objects(&mut slots, entries)?;
    push_all_labels(&mut slots, entries)?;
    Ok(slots)
}

//! The oids of objects by their names; 0 for what has none. The only error of each is want of memory.
ghost use Rattle.std.specs.Prelude.{◌≡◌, ◌^◌, ◌<◌, IfOk};
ghost use Rattle.cat_model.specs.declared.key.Key.TheVariants as key;
ghost use Rattle.cat_model.specs.KeyEffects.{index_path};
ghost use Rattle.entry_ids.specs.Ids.{oid_of, of_keys};
ghost use Rattle.entry_ids.specs.Oids.{type_oid};
ghost use Rattle.object_ids.specs.Slots.{check, label};

use crate::let_go::let_go_slot;
use cat_model::{Key, QName, TypeName};
use copy_text::Name;
use object_ids::{Ids, Slot, check_slot, label_slot, object_slot};
use plain_tables::is_system;
use std::alloc::AllocError;

// The oid that it has.
fn slot_oid(ids: &Ids, slot: Slot) -> u32
    ensures { result ≡ oid_of ids.now slot }
{
    let oid = ids.get(&slot).unwrap_or(0);
    let_go_slot(slot);
    oid
}

/// The oid of a key's object.
pub(crate) fn oid(ids: &Ids, key: Key) -> u32
    ensures { result ≡ of_keys ids.now key }
{
    slot_oid(ids, object_slot(key))
}

/// The oid of a role.
pub fn role_oid(ids: &Ids, name: &Name) -> Result<u32, AllocError>
    ensures { IfOk result (λ oid. oid ≡ of_keys ids.now (key.Role name.now)) }
{
    Ok(oid(ids, Key::Role(name.clone()?)))
}

/// The oid of a database.
pub fn database_oid(ids: &Ids, name: &Name) -> Result<u32, AllocError>
    ensures { IfOk result (λ oid. oid ≡ of_keys ids.now (key.Database name.now)) }
{
    Ok(oid(ids, Key::Database(name.clone()?)))
}

/// The oid of a schema.
pub fn schema_oid(ids: &Ids, name: &Name) -> Result<u32, AllocError>
    ensures { IfOk result (λ oid. oid ≡ of_keys ids.now (key.Schema name.now)) }
{
    Ok(oid(ids, Key::Schema(name.clone()?)))
}

/// The oid of a relation.
pub fn relation_oid(ids: &Ids, path: &QName) -> Result<u32, AllocError>
    ensures { IfOk result (λ oid. oid ≡ of_keys ids.now (key.Rel path.now)) }
{
    Ok(oid(ids, Key::Rel(path.clone()?)))
}

/// The oid of an index of a table, which lies in the table's schema.
pub fn index_oid(ids: &Ids, table: &QName, name: &Name) -> Result<u32, AllocError>
    ensures { IfOk result (λ oid. oid ≡ of_keys ids.now (key.Rel (index_path table.now name.now))) }
{
    let schema = table.schema.clone()?;
    let name = name.clone()?;
    Ok(oid(ids, Key::Rel(QName { schema, name })))
}

/// The oid of an enum or a domain.
pub fn type_oid(ids: &Ids, path: &QName) -> Result<u32, AllocError>
    ensures { IfOk result (λ oid. oid ≡ of_keys ids.now (key.UserType path.now)) }
{
    Ok(oid(ids, Key::UserType(path.clone()?)))
}

/// The oid of a type by its name; 0 for one that is neither an enum nor a domain.
pub fn named_type_oid(ids: &Ids, name: &TypeName) -> Result<u32, AllocError>
    ensures { IfOk result (λ oid. oid ≡ type_oid (of_keys ids.now) name.now) }
{
    match name {
        TypeName::Words(_) => Ok(0),
        TypeName::Path(path) if is_system(&path.schema) => Ok(0),
        TypeName::Path(path) => type_oid(ids, path),
    }
}

/// The oid of the body of a view.
pub fn body_oid(ids: &Ids, view: &QName) -> Result<u32, AllocError>
    ensures { IfOk result (λ oid. oid ≡ of_keys ids.now (key.Body view.now)) }
{
    Ok(oid(ids, Key::Body(view.clone()?)))
}

/// The oid of the default of a column.
pub fn default_oid(ids: &Ids, table: &QName, column: &Name) -> Result<u32, AllocError>
    ensures { IfOk result (λ oid. oid ≡ of_keys ids.now (key.Default table.now column.now)) }
{
    let column = column.clone()?;
    Ok(oid(ids, Key::Default(table.clone()?, column)))
}

/// The oid of a constraint of a table.
pub fn constraint_oid(ids: &Ids, table: &QName, name: &Name) -> Result<u32, AllocError>
    ensures { IfOk result (λ oid. oid ≡ of_keys ids.now (key.Con table.now name.now)) }
{
    let name = name.clone()?;
    Ok(oid(ids, Key::Con(table.clone()?, name)))
}

/// The oid of a check of a domain.
pub fn check_oid(ids: &Ids, domain: &QName, name: &Name) -> Result<u32, AllocError>
    ensures { IfOk result (λ oid. oid ≡ oid_of ids.now (check domain.now name.now)) }
{
    Ok(slot_oid(ids, check_slot(domain, name)?))
}

/// The oid of the label of an enum at a place, counted from 0.
pub fn label_oid(ids: &Ids, path: &QName, place: usize) -> Result<u32, AllocError>
    requires { place < 2 ^ 63 }
    ensures { IfOk result (λ oid. oid ≡ oid_of ids.now (label path.now place)) }
{
    Ok(slot_oid(ids, label_slot(path, place)?))
}

//! What has an oid of its own.
ghost use Rattle.std.specs.Prelude.{◌≡◌, ◌^◌, ◌<◌, IfOk};
ghost use Rattle.cat_model.specs.Keys.{key_kind};
ghost use Rattle.object_ids.specs.Slots.{object, check, label, table_of};

use cat_model::{Key, QName};
use copy_text::Name;
use std::alloc::AllocError;

/// What has an oid of its own: the object of a key, a check of a domain, or a label of an enum. Made by [`object_slot`],
/// [`check_slot`] and [`label_slot`].
pub type Slot = (u64, Key);

/// The object of a key.
pub fn object_slot(key: Key) -> Slot
    ensures { result ≡ object key }
{
    (0, key)
}

/// A check of a domain. The only error is want of memory.
pub fn check_slot(domain: &QName, name: &Name) -> Result<Slot, AllocError>
    ensures { IfOk result (λ slot. slot ≡ check domain.now name.now) }
{
    let name = name.clone()?;
    let domain = domain.clone()?;
    Ok((1, Key::Con(domain, name)))
}

/// The label of an enum at a place, counted from 0. The only error is want of memory.
pub fn label_slot(path: &QName, place: usize) -> Result<Slot, AllocError>
    requires { place < 2 ^ 63 }
    ensures { IfOk result (λ slot. slot ≡ label path.now place) }
{
    let path = path.clone()?;
    Ok((place as u64 + 2, Key::UserType(path)))
}

// The place of the key's kind among the kinds.
fn kind(key: &Key) -> u64
    ensures { result ≡ key_kind key.now }
{
    match key {
        Key::Role(_) => 0,
        Key::Member(..) => 1,
        Key::Schema(_) => 2,
        Key::UserType(_) => 3,
        Key::Rel(_) => 4,
        Key::Owner(_) => 5,
        Key::Default(..) => 6,
        Key::Con(..) => 7,
        Key::Index(..) => 8,
        Key::Rows(_) => 9,
        Key::SeqVal(_) => 10,
        Key::OwnedBy(_) => 11,
        Key::Acl(_) => 12,
        Key::Comment(_) => 13,
        Key::Body(_) => 14,
        Key::Database(_) => 15,
    }
}

/// The table whose rows have these oids, as a number.
pub(crate) fn table(slot: &Slot) -> u64
    ensures { result ≡ table_of slot.now }
{
    match slot.0 {
        0 => kind(&slot.1),
        1 => 7,
        _ => 16,
    }
}

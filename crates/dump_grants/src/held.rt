//! The rights that an item of a list of rights gives.
ghost use Rattle.std.specs.Prelude.{◌≡◌};
ghost use Rattle.dump_grants.specs.Held.{all_rights, public_rights, code, is_held, is_optional, rights_by, item_of, is_plain};

use acl_text::{Privilege, Right};
use cat_model::{Item, Rights};
use cat_names::GrantKind;
use grant_changes::{
    NO_RIGHTS, SCHEMA_RIGHTS, SEQUENCE_RIGHTS, TABLE_RIGHTS, TYPE_RIGHTS, has_rights, rights_less,
};

/// All rights that there are on an object of a kind, which its owner has from the start.
pub(crate) fn all_rights(kind: GrantKind) -> Rights
    ensures { result ≡ all_rights kind }
{
    match kind {
        GrantKind::Table => TABLE_RIGHTS,
        GrantKind::Sequence => SEQUENCE_RIGHTS,
        GrantKind::Schema => SCHEMA_RIGHTS,
        GrantKind::Type => TYPE_RIGHTS,
    }
}

/// The rights that every role has from the start.
pub(crate) fn public_rights(kind: GrantKind) -> Rights
    ensures { result ≡ public_rights kind }
{
    match kind {
        GrantKind::Type => TYPE_RIGHTS,
        GrantKind::Table | GrantKind::Sequence | GrantKind::Schema => NO_RIGHTS,
    }
}

// The place of a right among all.
fn code(privilege: Privilege) -> u8
    ensures { result ≡ code privilege }
{
    match privilege {
        Privilege::Insert => 0,
        Privilege::Select => 1,
        Privilege::Update => 2,
        Privilege::Delete => 3,
        Privilege::Truncate => 4,
        Privilege::References => 5,
        Privilege::Trigger => 6,
        Privilege::Usage => 7,
        Privilege::Create => 8,
    }
}

// Whether a right is among these.
fn is_held(rights: &[Right], privilege: Privilege) -> bool
    ensures { result ≡ is_held rights.now privilege }
{
    rights
        .iter()
        .any(|right| code(right.privilege) == code(privilege))
}

// Whether a right is among these with its option.
fn is_optional(rights: &[Right], privilege: Privilege) -> bool
    ensures { result ≡ is_optional rights.now privilege }
{
    rights.iter().any(|right| code(right.privilege) == code(privilege) && right.grant_option)
}

// Those that are among these.
fn held(rights: &[Right]) -> Rights
    ensures { result ≡ rights_by (is_held rights.now) }
{
    Rights {
        select: is_held(rights, Privilege::Select),
        usage: is_held(rights, Privilege::Usage),
        insert: is_held(rights, Privilege::Insert),
        references: is_held(rights, Privilege::References),
        delete: is_held(rights, Privilege::Delete),
        trigger: is_held(rights, Privilege::Trigger),
        truncate: is_held(rights, Privilege::Truncate),
        update: is_held(rights, Privilege::Update),
        create: is_held(rights, Privilege::Create),
    }
}

// Those that are among these with their options.
fn optional(rights: &[Right]) -> Rights
    ensures { result ≡ rights_by (is_optional rights.now) }
{
    Rights {
        select: is_optional(rights, Privilege::Select),
        usage: is_optional(rights, Privilege::Usage),
        insert: is_optional(rights, Privilege::Insert),
        references: is_optional(rights, Privilege::References),
        delete: is_optional(rights, Privilege::Delete),
        trigger: is_optional(rights, Privilege::Trigger),
        truncate: is_optional(rights, Privilege::Truncate),
        update: is_optional(rights, Privilege::Update),
        create: is_optional(rights, Privilege::Create),
    }
}

/// The rights that are listed, and those of them that may be granted on.
pub(crate) fn item_of(rights: &[Right]) -> Item
    ensures { result ≡ item_of rights.now }
{
    Item {
        rights: held(rights),
        options: optional(rights),
    }
}

/// No rights.
pub(crate) const NO_ITEM: Item = Item {
    rights: NO_RIGHTS,
    options: NO_RIGHTS,
};

/// Whether these are the given rights, and none may be granted on.
pub(crate) fn is_plain(item: Item, rights: Rights) -> bool
    ensures { result ≡ is_plain item rights }
{
    !has_rights(rights_less(rights, item.rights))
        && !has_rights(rights_less(item.rights, rights))
        && !has_rights(item.options)
}

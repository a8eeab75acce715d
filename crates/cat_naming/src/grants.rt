//! The grants that a list of rights stands for.
ghost use Rattle.std.specs.Prelude.{◌≡◌, [], ◌∷◌, IfOk, OnOk};
ghost use Rattle.std.specs.FinMap.{from_entries};
ghost use Rattle.cat_names.specs.Grants.{one_right, right_option, item_of, holder, default_grants, grants_of};
ghost use Rattle.cat_naming.specs.Rights.{with_given, grant_entries};

use acl_text::{Acl, AclItem, Privilege, Right};
use cat_model::{Grants, Holder, Item, Rights};
use cat_names::GrantKind;
use copy_text::Name;
use grant_changes::{
    NO_RIGHTS, SCHEMA_RIGHTS, SEQUENCE_RIGHTS, TABLE_RIGHTS, both_rights, owner_only, type_grants,
};
use std::alloc::{AllocError, Global};

// The one right of a letter.
fn one_right(privilege: Privilege) -> Rights
    ensures { result ≡ one_right privilege }
{
    match privilege {
        Privilege::Insert => Rights {
            insert: true,
            ..NO_RIGHTS
        },
        Privilege::Select => Rights {
            select: true,
            ..NO_RIGHTS
        },
        Privilege::Update => Rights {
            update: true,
            ..NO_RIGHTS
        },
        Privilege::Delete => Rights {
            delete: true,
            ..NO_RIGHTS
        },
        Privilege::Truncate => Rights {
            truncate: true,
            ..NO_RIGHTS
        },
        Privilege::References => Rights {
            references: true,
            ..NO_RIGHTS
        },
        Privilege::Trigger => Rights {
            trigger: true,
            ..NO_RIGHTS
        },
        Privilege::Usage => Rights {
            usage: true,
            ..NO_RIGHTS
        },
        Privilege::Create => Rights {
            create: true,
            ..NO_RIGHTS
        },
    }
}

// The right of a letter where it has the grant option.
fn right_option(right: Right) -> Rights
    ensures { result ≡ right_option right }
{
    if right.grant_option {
        one_right(right.privilege)
    } else {
        NO_RIGHTS
    }
}

// The rights that are listed, and their options.
fn item_of(item: &AclItem) -> Item
    ensures { result ≡ item_of item.now }
{
    let mut rights = NO_RIGHTS;
    let mut options = NO_RIGHTS;
    for right in item.rights.as_slice() {
        rights = both_rights(rights, one_right(right.privilege));
        options = both_rights(options, right_option(*right));
    }
    Item { rights, options }
}

// Who has the rights of a grantee, by the name of the object's owner.
fn holder_of(owner: &Name, grantee: &Option<Name>) -> Result<Holder, AllocError>
    ensures { IfOk result (λ h. h ≡ holder owner.now grantee.now) }
{
    match grantee {
        None => Ok(Holder::Public),
        Some(name) => {
            if owner == name {
                Ok(Holder::Owner)
            } else {
                Ok(Holder::Role(name.clone()?))
            }
        }
    }
}

// Puts what an item gives in place of what its holder had. An item without rights gives nothing.
fn put_item(grants: &mut Grants, owner: &Name, item: &AclItem) -> Result<(), AllocError>
    ensures { OnOk result (grants.new ≡ with_given owner.now item.now grants.old) }
{
    if item.rights.as_slice().is_empty() {
        return Ok(());
    }
    grants.put(holder_of(owner, &item.grantee)?, item_of(item))
}

// The grants of these items, of which the first of a holder counts: the last is put first.
fn listed_grants(alloc: Global, owner: &Name, items: &[AclItem]) -> Result<Grants, AllocError>
    ensures { IfOk result (λ grants. grants ≡ from_entries (grant_entries owner.now items.now)) }
{
    let mut grants = Grants::new(alloc);
    let mut left = items;
    'items: while let Some((item, before)) = left.split_last() {
        put_item(&mut grants, owner, item)?;
        left = before;
    }
    Ok(grants)
}

// The grants on a new object of a kind.
fn default_grants(alloc: Global, kind: GrantKind) -> Result<Grants, AllocError>
    ensures { IfOk result (λ grants. grants ≡ default_grants kind) }
{
    match kind {
        GrantKind::Table => owner_only(alloc, TABLE_RIGHTS),
        GrantKind::Sequence => owner_only(alloc, SEQUENCE_RIGHTS),
        GrantKind::Schema => owner_only(alloc, SCHEMA_RIGHTS),
        GrantKind::Type => type_grants(alloc),
    }
}

/// The grants on an object of a kind with this owner. Null stands for the default ones of the kind.
pub(crate) fn grants_of(
    alloc: Global,
    kind: GrantKind,
    owner: &Name,
    acl: &Option<Acl>,
) -> Result<Grants, AllocError>
    ensures { IfOk result (λ grants. grants ≡ grants_of kind owner.now acl.now) }
{
    match acl {
        None => default_grants(alloc, kind),
        Some(acl) => listed_grants(alloc, owner, acl.as_slice()),
    }
}

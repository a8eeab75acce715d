//! What becomes of the grants on an object.
ghost use Rattle.std.specs.Prelude.{◌≡◌, IfOk, if◌then◌else◌};
ghost use Rattle.std.specs.FinMap.{get, insert, remove};
ghost use Rattle.cat_model.specs.Grants.{item_or_none, holder_of, with_item, both_rights, granted, revoked, both_items, joined};
ghost use Rattle.cat_model.specs.declared.holder.Holder.TheVariants.{Owner as OWNER};

use crate::rights::{NO_RIGHTS, both_rights, has_rights, rights_less};
use cat_model::{Grantee, Grants, Holder, Item, Rights};
use copy_text::Name;
use std::alloc::AllocError;

/// Whose rights those of a grantee are, on an object whose owner's name has these bytes: the owner has the owner's. The
/// only error is want of memory.
pub fn holder_of(owner: &[u8], grantee: &Grantee) -> Result<Holder, AllocError>
    ensures { IfOk result (λ holder. holder ≡ holder_of owner.now grantee.now) }
{
    match grantee {
        Grantee::Public => Ok(Holder::Public),
        Grantee::Role(name) => {
            if owner == name.as_bytes() {
                Ok(Holder::Owner)
            } else {
                Ok(Holder::Role(name.clone()?))
            }
        }
    }
}

fn item_or_none(item: Option<Item>) -> Item
    ensures { result ≡ item_or_none item }
{
    match item {
        Some(item) => item,
        None => Item {
            rights: NO_RIGHTS,
            options: NO_RIGHTS,
        },
    }
}

// The grants in which a holder has these rights; without a right it stands in none.
fn with_item(grants: &Grants, holder: &Holder, item: Item) -> Result<Grants, AllocError>
    ensures { IfOk result (λ changed. changed ≡ with_item grants.now holder.now item) }
{
    let mut changed = grants.clone()?;
    if has_rights(item.rights) {
        changed.put(holder.clone()?, item)?;
    } else {
        changed.take(holder);
    }
    Ok(changed)
}

// The options of a holder that gets these rights.
fn more_options(options: Rights, rights: Rights, option: bool) -> Rights
    ensures { result ≡ (if option then both_rights options rights else options) }
{
    if option {
        both_rights(options, rights)
    } else {
        options
    }
}

/// The grants after GRANT of these rights to a holder, with the option to grant them on where that is given. An option
/// that is there stays. The only error is want of memory.
pub fn granted(
    grants: &Grants,
    holder: &Holder,
    rights: Rights,
    option: bool,
) -> Result<Grants, AllocError>
    ensures { IfOk result (λ changed. changed ≡ granted rights option holder.now grants.now) }
{
    let item = item_or_none(grants.get(holder));
    let item = Item {
        rights: both_rights(item.rights, rights),
        options: more_options(item.options, rights, option),
    };
    with_item(grants, holder, item)
}

/// The grants after REVOKE of these rights from a holder, with the options to grant them. The only error is want of
/// memory.
pub fn revoked(grants: &Grants, holder: &Holder, rights: Rights) -> Result<Grants, AllocError>
    ensures { IfOk result (λ changed. changed ≡ revoked rights holder.now grants.now) }
{
    let item = item_or_none(grants.get(holder));
    let item = Item {
        rights: rights_less(item.rights, rights),
        options: rights_less(item.options, rights),
    };
    with_item(grants, holder, item)
}

fn both_items(a: Item, b: Item) -> Item
    ensures { result ≡ both_items a b }
{
    Item {
        rights: both_rights(a.rights, b.rights),
        options: both_rights(a.options, b.options),
    }
}

// The grants in which what a role has is the owner's.
fn join(grants: &Grants, role: &Holder, item: Item) -> Result<Grants, AllocError>
    ensures { IfOk result (λ changed. changed ≡ insert (remove grants.now role.now) OWNER (both_items item (item_or_none (get grants.now OWNER)))) }
{
    let item = both_items(item, item_or_none(grants.get(&Holder::Owner)));
    let mut changed = grants.clone()?;
    changed.take(role);
    changed.put(Holder::Owner, item)?;
    Ok(changed)
}

/// The grants after a role became the owner: what it has itself joins what the owner has. The only error is want of
/// memory.
pub fn joined(grants: &Grants, role: &Name) -> Result<Grants, AllocError>
    ensures { IfOk result (λ changed. changed ≡ joined role.now grants.now) }
{
    let holder = Holder::Role(role.clone()?);
    match grants.get(&holder) {
        Some(item) => join(grants, &holder, item),
        None => grants.clone(),
    }
}

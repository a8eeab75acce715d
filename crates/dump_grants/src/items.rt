//! Who has rights by a list of rights.
ghost use Rattle.std.specs.Prelude.{◌≡◌, ◌++◌, map, filter_map, option_map, IfOk, OnOk};
ghost use Rattle.std.specs.List.{find};
ghost use Rattle.std.specs.Option.{option_to_list};
ghost use Rattle.dep_sort.specs.FirstOrder.{in_order};
ghost use Rattle.dump_grants.specs.Holders.{gives, is_of_role, is_of_public, given, owner_item, public_item, role_item, role_items, name_less};
ghost use Rattle.dump_grants.specs.Seen.{role_seen};

use crate::held::{NO_ITEM, item_of};
use acl_text::AclItem;
use cat_model::Item;
use copy_text::Name;
use std::alloc::{AllocError, Global};

/// A role that isn't the owner, with its rights.
#[derive(Drop)]
pub(crate) struct RoleItem<'a> {
    pub(crate) name: &'a Name,
    pub(crate) item: Item,
}

// Whether an item gives rights.
fn gives(item: &AclItem) -> bool
    ensures { result ≡ gives item.now }
{
    !item.rights.as_slice().is_empty()
}

// Whether an item gives rights to this role.
fn is_of_role(owner: &Name, item: &AclItem) -> bool
    ensures { result ≡ is_of_role owner.now item.now }
{
    match &item.grantee {
        Some(name) => gives(item) && owner == name,
        None => false,
    }
}

// Whether an item gives rights to every role.
fn is_of_public(item: &AclItem) -> bool
    ensures { result ≡ is_of_public item.now }
{
    item.grantee.is_none() && gives(item)
}

// What an item gives, if there is one.
fn given(item: Option<&AclItem>) -> Item
    ensures { result ≡ given (option_map (λ i. i.now) item.entry) }
{
    match item {
        Some(item) => item_of(item.rights.as_slice()),
        None => NO_ITEM,
    }
}

// The item that gives rights to this role.
fn item_of_role<'a>(owner: &Name, items: &'a [AclItem]) -> Option<&'a AclItem>
    ensures { option_map (λ i. i.now) result ≡ find (is_of_role owner.now) items.now }
{
    items.iter().find(|item| is_of_role(owner, *item))
}

/// What the owner has.
pub(crate) fn owner_item(owner: &Name, items: &[AclItem]) -> Item
    ensures { result ≡ owner_item owner.now items.now }
{
    given(item_of_role(owner, items))
}

// The item that gives rights to every role.
fn item_of_public(items: &[AclItem]) -> Option<&AclItem>
    ensures { option_map (λ i. i.now) result ≡ find is_of_public items.now }
{
    items.iter().find(|item| is_of_public(*item))
}

/// What every role has.
pub(crate) fn public_item(items: &[AclItem]) -> Item
    ensures { result ≡ public_item items.now }
{
    given(item_of_public(items))
}

// What an item gives to a role that isn't the owner.
fn role_item<'a>(owner: &Name, item: &'a AclItem) -> Option<RoleItem<'a>>
    ensures { option_map role_seen result ≡ role_item owner.now item.now }
{
    match &item.grantee {
        Some(name) if gives(item) && owner != name => Some(RoleItem {
            name,
            item: item_of(item.rights.as_slice()),
        }),
        _ => None,
    }
}

// Adds a role behind others, where there is one.
fn push_role<'a>(
    roles: &mut Vec<RoleItem<'a>>,
    role: Option<RoleItem<'a>>,
) -> Result<(), AllocError>
    ensures { OnOk result (map role_seen roles.new.items ≡ map role_seen roles.old.items ++ option_to_list (option_map role_seen role.entry)) }
{
    if let Some(role) = role {
        roles.push(role)?;
    }
    Ok(())
}

// The roles that have rights, as they are listed.
fn roles_listed<'a>(
    alloc: Global,
    owner: &Name,
    items: &'a [AclItem],
) -> Result<Vec<RoleItem<'a>>, AllocError>
    ensures { IfOk result (λ roles. map role_seen roles.items ≡ filter_map (role_item owner.now) items.now) }
{
    let mut roles = Vec::new(alloc);
    for item in items {
        push_role(&mut roles, role_item(owner, item))?;
    }
    Ok(roles)
}

/// The roles that have rights beside the owner, by their names.
pub(crate) fn role_items<'a>(
    alloc: Global,
    owner: &Name,
    items: &'a [AclItem],
) -> Result<Vec<RoleItem<'a>>, AllocError>
    ensures { IfOk result (λ roles. map role_seen roles.items ≡ role_items owner.now items.now) }
{
    let mut roles = roles_listed(alloc, owner, items)?;
    roles.sort_by(|a, b| a.name.cmp(b.name))?;
    Ok(roles)
}

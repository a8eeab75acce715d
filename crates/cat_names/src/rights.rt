//! Lists of rights, tried against the roles and the kind of object that they are on.
ghost use Rattle.std.specs.Prelude.{◌≡◌, [], ◌∷◌, ◌++◌, map, not, Option, List, IfOk, OnOk, option_map};
ghost use Rattle.std.specs.List.{list_all, list_any};
ghost use Rattle.acl_text.specs.declared.list.AclItem.{AclItem as Item};
ghost use Rattle.cat_model.specs.Values.{Bytes};
ghost use Rattle.cat_names.specs.Indexed.{AreKeys};
ghost use Rattle.cat_names.specs.Rights.{has_privilege, giving, grantee_cmp, is_grantee, is_bad_item, has_bad_item, is_bad_acl, is_others_item, is_by_other};

use crate::keys::add_key;
use crate::role_index::RoleIndex;
use acl_text::{Acl, AclItem, Privilege, Right};
use copy_text::Name;
use std::alloc::{AllocError, Global};
use std::collections::BTreeSet;

/// What rights are on.
#[derive(Clone, Copy)]
pub enum GrantKind {
    /// A table or a view.
    Table,
    /// A sequence.
    Sequence,
    /// A schema.
    Schema,
    /// An enum or a domain.
    Type,
}

// Whether there is such a right on an object of this kind.
fn has_privilege(on: GrantKind, privilege: Privilege) -> bool
    ensures { result ≡ has_privilege on privilege }
{
    match on {
        GrantKind::Table => !matches!(privilege, Privilege::Usage | Privilege::Create),
        GrantKind::Sequence => matches!(
            privilege,
            Privilege::Select | Privilege::Update | Privilege::Usage
        ),
        GrantKind::Schema => matches!(privilege, Privilege::Usage | Privilege::Create),
        GrantKind::Type => matches!(privilege, Privilege::Usage),
    }
}

fn has_privileges(on: GrantKind, rights: &[Right]) -> bool
    ensures { result ≡ list_all (λ r. has_privilege on r.privilege) rights.now }
{
    rights.iter().all(|r| has_privilege(on, r.privilege))
}

fn is_grantee(roles: &RoleIndex<'_>, grantee: &Option<Name>) -> bool
    ensures { result ≡ is_grantee roles.now grantee.now }
{
    match grantee {
        None => true,
        Some(name) => roles.has_name(name),
    }
}

fn clone_grantee(grantee: &Option<Name>) -> Result<Option<Name>, AllocError>
    ensures { IfOk result (λ g. g ≡ grantee.now) }
{
    match grantee {
        None => Ok(None),
        Some(name) => Ok(Some(name.clone()?)),
    }
}

// Whether an item is bad behind those before it, whose grantees are given.
fn is_bad_item(
    on: GrantKind,
    roles: &RoleIndex<'_>,
    grantees: &mut BTreeSet<Option<Name>>,
    item: &AclItem,
) -> Result<bool, AllocError>
    ensures bad { IfOk result (λ bad. (before : List Item) → AreKeys grantee_cmp grantees.old (map (λ i. i.grantee) before) → bad ≡ is_bad_item on roles.now before item.now) }
    ensures added { OnOk result ((gs : List (Option Bytes)) → AreKeys grantee_cmp grantees.old gs → AreKeys grantee_cmp grantees.new (gs ++ item.now.grantee ∷ [])) }
{
    let first = add_key(grantees, clone_grantee(&item.grantee)?)?;
    let known = is_grantee(roles, &item.grantee) && roles.has_name(&item.grantor);
    Ok(!has_privileges(on, item.rights.as_slice()) || !known || !first)
}

// The items that give rights.
fn giving(alloc: Global, items: &[AclItem]) -> Result<Vec<&AclItem>, AllocError>
    ensures { IfOk result (λ v. map (λ i. i.now) v.items ≡ giving items.now) }
{
    items
        .iter()
        .filter(|i| !i.rights.as_slice().is_empty())
        .collect(alloc)
}

// Whether one of these items is bad.
fn has_bad_item(
    alloc: Global,
    on: GrantKind,
    roles: &RoleIndex<'_>,
    items: &[&AclItem],
) -> Result<bool, AllocError>
    ensures { IfOk result (λ bad. bad ≡ has_bad_item on roles.now [] (map (λ i. i.now) items.now)) }
{
    let mut grantees = BTreeSet::new(alloc);
    for item in items {
        if is_bad_item(on, roles, &mut grantees, *item)? {
            return Ok(true);
        }
    }
    Ok(false)
}

/// Whether one of the items is bad. Null, the default rights, never is.
pub fn is_bad_acl(
    alloc: Global,
    on: GrantKind,
    roles: &RoleIndex<'_>,
    acl: &Option<Acl>,
) -> Result<bool, AllocError>
    ensures { IfOk result (λ bad. bad ≡ is_bad_acl on roles.now acl.now) }
{
    match acl {
        None => Ok(false),
        Some(acl) => {
            let items = giving(alloc, acl.as_slice())?;
            has_bad_item(alloc, on, roles, &items)
        }
    }
}

/// Whether another role than the owner granted a right.
pub fn is_by_other(owner: Option<&Name>, acl: &Option<Acl>) -> bool
    ensures { result ≡ is_by_other (option_map (λ n. n.now) owner.entry) acl.now }
{
    match (owner, acl) {
        (Some(owner), Some(acl)) => has_others_item(owner, acl.as_slice()),
        _ => false,
    }
}

fn has_others_item(owner: &Name, items: &[AclItem]) -> bool
    ensures { result ≡ list_any (is_others_item owner.now) items.now }
{
    items.iter().any(|item| is_others_item(owner, item))
}

fn is_others_item(owner: &Name, item: &AclItem) -> bool
    ensures { result ≡ is_others_item owner.now item.now }
{
    !item.rights.as_slice().is_empty() && owner != &item.grantor
}

//! Lists of rights.
ghost use Rattle.std.specs.Prelude.{◌≡◌, ◌++◌, ◌∷◌, [], IfOk, OnOk};
ghost use Rattle.acl_text.specs.declared.rights.Privilege.TheVariants.{Insert, Select, Update, Delete, Truncate, References, Trigger, Usage, Create};
ghost use Rattle.cat_names.specs.Grants.{default_grants};
ghost use Rattle.named_tables.specs.Rights.{right, rights_list, grantee, acl_item, acl_items, IsAcl};

use crate::same::same_grants;
use acl_text::{Acl, AclItem, Privilege, Right, Rights as AclRights};
use cat_model::{Grants, Holder, Item, Rights};
use cat_names::GrantKind;
use copy_text::Name;
use grant_changes::{SCHEMA_RIGHTS, SEQUENCE_RIGHTS, TABLE_RIGHTS, owner_only, type_grants};
use std::alloc::{AllocError, Global};

// What a new object of a kind has.
fn default_grants(alloc: Global, kind: GrantKind) -> Result<Grants, AllocError>
    ensures { IfOk result (λ grants. grants ≡ default_grants kind) }
{
    match kind {
        GrantKind::Table => owner_only(alloc, TABLE_RIGHTS),
        GrantKind::Sequence => owner_only(alloc, SEQUENCE_RIGHTS),
        GrantKind::Schema => owner_only(alloc, SCHEMA_RIGHTS),
        GrantKind::Type => type_grants(alloc),
    }
}

// Appends a right, where there is one.
fn push_right(
    rights: &mut Vec<Right>,
    has: bool,
    option: bool,
    privilege: Privilege,
) -> Result<(), AllocError>
    ensures { OnOk result (rights.new.items ≡ rights.old.items ++ right has option privilege) }
{
    if has {
        rights.push(Right {
            privilege,
            grant_option: option,
        })?;
    }
    Ok(())
}

// The rights of an item in the order of their letters, up to those of tables that change rows.
fn first_rights(rights: &mut Vec<Right>, has: &Rights, may: &Rights) -> Result<(), AllocError>
    ensures { OnOk result (rights.new.items ≡ rights.old.items ++ right has.now.insert may.now.insert Insert ++ right has.now.select may.now.select Select ++ right has.now.update may.now.update Update) }
{
    push_right(rights, has.insert, may.insert, Privilege::Insert)?;
    push_right(rights, has.select, may.select, Privilege::Select)?;
    push_right(rights, has.update, may.update, Privilege::Update)
}

// The next three.
fn next_rights(rights: &mut Vec<Right>, has: &Rights, may: &Rights) -> Result<(), AllocError>
    ensures { OnOk result (rights.new.items ≡ rights.old.items ++ right has.now.delete may.now.delete Delete ++ right has.now.truncate may.now.truncate Truncate ++ right has.now.references may.now.references References) }
{
    push_right(rights, has.delete, may.delete, Privilege::Delete)?;
    push_right(rights, has.truncate, may.truncate, Privilege::Truncate)?;
    push_right(
        rights,
        has.references,
        may.references,
        Privilege::References,
    )
}

// And the last three.
fn last_rights(rights: &mut Vec<Right>, has: &Rights, may: &Rights) -> Result<(), AllocError>
    ensures { OnOk result (rights.new.items ≡ rights.old.items ++ right has.now.trigger may.now.trigger Trigger ++ right has.now.usage may.now.usage Usage ++ right has.now.create may.now.create Create) }
{
    push_right(rights, has.trigger, may.trigger, Privilege::Trigger)?;
    push_right(rights, has.usage, may.usage, Privilege::Usage)?;
    push_right(rights, has.create, may.create, Privilege::Create)
}

// The rights of an item as a list.
fn rights_of(alloc: Global, item: &Item) -> Result<AclRights, AllocError>
    ensures { IfOk result (λ rights. rights ≡ rights_list item.now) }
{
    let mut rights = Vec::new(alloc);
    first_rights(&mut rights, &item.rights, &item.options)?;
    next_rights(&mut rights, &item.rights, &item.options)?;
    last_rights(&mut rights, &item.rights, &item.options)?;
    Ok(AclRights::from_vec(rights))
}

fn grantee_of(holder: &Holder, owner: &Name) -> Result<Option<Name>, AllocError>
    ensures { IfOk result (λ name. name ≡ grantee owner.now holder.now) }
{
    match holder {
        Holder::Owner => Ok(Some(owner.clone()?)),
        Holder::Public => Ok(None),
        Holder::Role(name) => Ok(Some(name.clone()?)),
    }
}

fn item_of(alloc: Global, holder: &Holder, item: &Item, owner: &Name) -> Result<AclItem, AllocError>
    ensures { IfOk result (λ made. made ≡ acl_item owner.now (holder.now, item.now)) }
{
    let rights = rights_of(alloc, item)?;
    let grantee = grantee_of(holder, owner)?;
    Ok(AclItem {
        grantee,
        rights,
        grantor: owner.clone()?,
    })
}

// An item a holder, in the order of holders.
fn items_of(alloc: Global, grants: &Grants, owner: &Name) -> Result<Vec<AclItem>, AllocError>
    ensures { IfOk result (λ made. made.items ≡ acl_items owner.now grants.now) }
{
    let mut items = Vec::new(alloc);
    for (holder, item) in grants.iter() {
        items.push(item_of(alloc, holder, item, owner)?)?;
    }
    Ok(items)
}

/// The list of the grants on an object of a kind, which has this owner: null exactly for those of a new object, else an item
/// a holder, granted by the owner. The only error is want of memory. See <https://www.postgresql.org/docs/16/ddl-priv.html>.
pub fn acl_of(
    alloc: Global,
    kind: GrantKind,
    owner: &Name,
    grants: &Grants,
) -> Result<Option<Acl>, AllocError>
    ensures { IfOk result (λ acl. IsAcl kind owner.now grants.now acl) }
{
    let usual = default_grants(alloc, kind)?;
    if same_grants(&usual, grants) {
        return Ok(None);
    }
    Ok(Some(Acl::from_vec(items_of(alloc, grants, owner)?)))
}

//! GRANT and REVOKE as texts.
ghost use Rattle.std.specs.Prelude.{◌≡◌, [], ◌∷◌, ◌++◌, Some, map, option_map, IfOk, OnOk};
ghost use Rattle.cat_model.specs.declared.grant.Grantee.TheVariants as grantees;
ghost use Rattle.cat_model.specs.declared.stmt.Stmt.TheVariants as stmts;
ghost use Rattle.cat_names.specs.Rights.{is_empty_list};
ghost use Rattle.dump_grants.specs.Holders.{role_items};
ghost use Rattle.dump_grants.specs.Seen.{role_seen};
ghost use Rattle.dump_grants.specs.Stmts.{granting, item_stmts, owner_stmts, lacking, public_stmts, role_stmts, all_stmts, are_default, grant_stmts, texts};

use crate::held::{all_rights, is_plain, public_rights};
use crate::items::{RoleItem, owner_item, public_item, role_items};
use acl_text::{Acl, AclItem};
use cat_model::{Granted, Grantee, Item, Rights, Stmt};
use cat_names::GrantKind;
use copy_text::{Name, Text};
use ddl_write::{WriteStmtError, write_stmt};
use grant_changes::{has_rights, rights_less};
use std::alloc::{AllocError, Global};

// Appends the one written spelling of a statement.
fn put_stmt(stmt: Stmt, out: &mut Vec<u8>) -> Result<(), AllocError>
    ensures { OnOk result (out.new.items ≡ out.old.items ++ texts (stmt ∷ [])) }
{
    let written = write_stmt(&stmt, out);
    drop(stmt);
    match written {
        Ok(()) => Ok(()),
        Err(WriteStmtError::Memory) => Err(AllocError),
    }
}

// The same object.
fn same_object(object: &Granted) -> Result<Granted, AllocError>
    ensures { IfOk result (λ same. same ≡ object.now) }
{
    match object {
        Granted::Table(q) => Ok(Granted::Table(q.clone()?)),
        Granted::Sequence(q) => Ok(Granted::Sequence(q.clone()?)),
        Granted::Schema(name) => Ok(Granted::Schema(name.clone()?)),
        Granted::Type(q) => Ok(Granted::Type(q.clone()?)),
    }
}

// The same grantee.
fn same_grantee(grantee: &Grantee) -> Result<Grantee, AllocError>
    ensures { IfOk result (λ same. same ≡ grantee.now) }
{
    match grantee {
        Grantee::Public => Ok(Grantee::Public),
        Grantee::Role(name) => Ok(Grantee::Role(name.clone()?)),
    }
}

// Appends GRANT of rights, where there are some.
fn put_grant(
    object: &Granted,
    rights: Rights,
    grantee: &Grantee,
    option: bool,
    out: &mut Vec<u8>,
) -> Result<(), AllocError>
    ensures { OnOk result (out.new.items ≡ out.old.items ++ texts (granting object.now rights grantee.now option)) }
{
    if !has_rights(rights) {
        return Ok(());
    }
    let object = same_object(object)?;
    let grantee = same_grantee(grantee)?;
    put_stmt(
        Stmt::Grant {
            object,
            rights,
            grantee,
            option,
        },
        out,
    )
}

// Appends REVOKE of rights.
fn put_revoke(
    object: &Granted,
    rights: Rights,
    grantee: &Grantee,
    out: &mut Vec<u8>,
) -> Result<(), AllocError>
    ensures { OnOk result (out.new.items ≡ out.old.items ++ texts (stmts.Revoke object.now rights grantee.now ∷ [])) }
{
    let object = same_object(object)?;
    let grantee = same_grantee(grantee)?;
    put_stmt(
        Stmt::Revoke {
            object,
            rights,
            grantee,
        },
        out,
    )
}

// Appends GRANT of what one has: first without the option to grant it on, then with it.
fn put_item(
    object: &Granted,
    grantee: &Grantee,
    item: Item,
    out: &mut Vec<u8>,
) -> Result<(), AllocError>
    ensures { OnOk result (out.new.items ≡ out.old.items ++ texts (item_stmts object.now grantee.now item)) }
{
    put_grant(
        object,
        rights_less(item.rights, item.options),
        grantee,
        false,
        out,
    )?;
    put_grant(object, item.options, grantee, true, out)
}

// Appends what the owner's rights need, where they aren't those of a new object.
fn put_owner(
    object: &Granted,
    rights: Rights,
    owner: &Name,
    item: Item,
    out: &mut Vec<u8>,
) -> Result<(), AllocError>
    ensures { OnOk result (out.new.items ≡ out.old.items ++ texts (owner_stmts object.now rights owner.now item)) }
{
    if is_plain(item, rights) {
        return Ok(());
    }
    let grantee = Grantee::Role(owner.clone()?);
    put_revoke(object, rights, &grantee, out)?;
    put_item(object, &grantee, item, out)
}

// Appends what the rights of every role need, who has some of a new object.
fn put_public(
    object: &Granted,
    rights: Rights,
    item: Item,
    out: &mut Vec<u8>,
) -> Result<(), AllocError>
    ensures { OnOk result (out.new.items ≡ out.old.items ++ texts (public_stmts object.now rights item)) }
{
    if has_rights(rights_less(rights, item.rights)) {
        put_revoke(object, rights, &Grantee::Public, out)?;
    }
    put_item(object, &Grantee::Public, item, out)
}

// Appends what the rights of a role need.
fn put_role(object: &Granted, role: &RoleItem<'_>, out: &mut Vec<u8>) -> Result<(), AllocError>
    ensures { OnOk result (out.new.items ≡ out.old.items ++ texts (item_stmts object.now (grantees.Role role.now.name.now) role.now.item)) }
{
    let grantee = Grantee::Role(role.name.clone()?);
    put_item(object, &grantee, role.item, out)
}

// Appends what the rights of roles need.
fn put_roles(object: &Granted, roles: &[RoleItem<'_>], out: &mut Vec<u8>) -> Result<(), AllocError>
    ensures { OnOk result (out.new.items ≡ out.old.items ++ texts (role_stmts object.now (map role_seen roles.now))) }
{
    for role in roles {
        put_role(object, role, out)?;
    }
    Ok(())
}

// Appends what the rights of the roles beside the owner need.
fn put_others(
    alloc: Global,
    object: &Granted,
    owner: &Name,
    items: &[AclItem],
    out: &mut Vec<u8>,
) -> Result<(), AllocError>
    ensures { OnOk result (out.new.items ≡ out.old.items ++ texts (role_stmts object.now (role_items owner.now items.now))) }
{
    let roles = role_items(alloc, owner, items)?;
    put_roles(object, &roles, out)?;
    Ok(())
}

// Appends what all rights need.
fn put_all(
    alloc: Global,
    kind: GrantKind,
    object: &Granted,
    owner: &Name,
    items: &[AclItem],
    out: &mut Vec<u8>,
) -> Result<(), AllocError>
    ensures { OnOk result (out.new.items ≡ out.old.items ++ texts (all_stmts kind object.now owner.now items.now)) }
{
    put_owner(
        object,
        all_rights(kind),
        owner,
        owner_item(owner, items),
        out,
    )?;
    put_public(object, public_rights(kind), public_item(items), out)?;
    put_others(alloc, object, owner, items, out)
}

// Whether there are no roles.
fn are_none(roles: &[RoleItem<'_>]) -> bool
    ensures { result ≡ is_empty_list (map role_seen roles.now) }
{
    match roles {
        [] => true,
        [_, ..] => false,
    }
}

// Whether the grants are those of a new object.
fn are_default(
    alloc: Global,
    kind: GrantKind,
    owner: &Name,
    items: &[AclItem],
) -> Result<bool, AllocError>
    ensures { IfOk result (λ default. default ≡ are_default kind owner.now items.now) }
{
    let roles = role_items(alloc, owner, items)?;
    Ok(
        is_plain(owner_item(owner, items), all_rights(kind))
            && is_plain(public_item(items), public_rights(kind))
            && are_none(&roles),
    )
}

// The statements as a text.
fn text_of(
    alloc: Global,
    kind: GrantKind,
    object: &Granted,
    owner: &Name,
    items: &[AclItem],
) -> Result<Text, AllocError>
    ensures { IfOk result (λ text. text ≡ texts (all_stmts kind object.now owner.now items.now)) }
{
    let mut bytes = Vec::new(alloc);
    put_all(alloc, kind, object, owner, items, &mut bytes)?;
    // The bytes are UTF-8, so this is never `None`.
    Text::new(bytes).ok_or(AllocError)
}

// The same, where the grants aren't those of a new object.
#[tactic(auto, unfolding(crate::specs::Stmts::grant_stmts))]
fn listed_text(
    alloc: Global,
    kind: GrantKind,
    object: &Granted,
    owner: &Name,
    items: &[AclItem],
) -> Result<Option<Text>, AllocError>
    ensures { IfOk result (λ text. text ≡ option_map texts (grant_stmts kind object.now owner.now (Some items.now))) }
{
    if are_default(alloc, kind, owner, items)? {
        return Ok(None);
    }
    let text = text_of(alloc, kind, object, owner, items)?;
    Ok(Some(text))
}

/// The statements that make the grants on a new object of this owner those of a list of rights; `None` where they are, as
/// null stands for. The only error is that memory ran out.
#[tactic(auto, unfolding(crate::specs::Stmts::grant_stmts))]
pub fn grants_text(
    alloc: Global,
    kind: GrantKind,
    object: &Granted,
    owner: &Name,
    acl: &Option<Acl>,
) -> Result<Option<Text>, AllocError>
    ensures { IfOk result (λ text. text ≡ option_map texts (grant_stmts kind object.now owner.now acl.now)) }
{
    match acl {
        None => Ok(None),
        Some(acl) => listed_text(alloc, kind, object, owner, acl.as_slice()),
    }
}

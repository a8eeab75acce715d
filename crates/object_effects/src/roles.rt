//! Statements about roles and databases.
ghost use Rattle.std.specs.Prelude.{◌≡◌, [], ◌∷◌, Ok, Some, not, unwrap_or, codes, IfOk, OnOk};
ghost use Rattle.cat_model.specs.declared.cause.Cause.TheVariants as cause;
ghost use Rattle.cat_model.specs.declared.constraint.Encoding.TheVariants as encoding;
ghost use Rattle.cat_model.specs.declared.key.Key.TheVariants as key;
ghost use Rattle.cat_model.specs.declared.object.Object.TheVariants as object;
ghost use Rattle.cat_model.specs.Conditions.{check};
ghost use Rattle.cat_model.specs.Lexemes.{same_text};
ghost use Rattle.cat_model.specs.RoleEffects.{new_role, create_role, or_as_before, role_changed, alter_role, needs_grantor, grant_role, create_database};
ghost use Rattle.cat_model.specs.Trees.{Tree, Seen, sets, outcome, seen};
ghost use Rattle.cat_model.specs.declared.value.Value.TheVariants as value;
ghost use Rattle.cat_model.specs.Values.{Bytes};
ghost use Rattle.eng_steps.specs.Outcomes.{Steps};

use cat_model::{Cause, Encoding, Key, Membership, Object, Role, RoleChanges, Value};
use copy_text::{Name, Text};
use eng_map::{Change, NamedMap};
use eng_steps::{ApplyError, free, needs, needs_role, one, set_owner};
use std::alloc::{AllocError, Global};

// It inherits, and has nothing else.
fn new_role() -> Role
    ensures { result ≡ new_role }
{
    Role {
        superuser: false,
        inherit: true,
        create_role: false,
        create_db: false,
        login: false,
        replication: false,
        bypass_rls: false,
        limit: -1,
        password: None,
        valid_until: None,
    }
}

// The name isn't `public`, which stands for all roles.
fn no_public(name: &Name) -> Result<(), ApplyError>
    ensures { (next : Tree) (s : Seen) → Steps result (outcome (check (not (same_text name.now (codes "public"))) (cause.Exists (key.Role name.now)) next) s) (λ _. outcome next s) }
{
    if name.as_bytes() == b"public".as_slice() {
        return Err(ApplyError::Refused(Cause::Exists(Key::Role(name.clone()?))));
    }
    Ok(())
}

fn role_changes(alloc: Global, name: &Name, role: Role) -> Result<Vec<Change>, AllocError>
    ensures { IfOk result (λ changes. changes.items ≡ (key.Role name.now, Some (value.Role role)) ∷ []) }
{
    one(alloc, Key::Role(name.clone()?), Value::Role(role))
}

/// CREATE ROLE.
pub fn create_role(alloc: Global, named: &NamedMap, name: &Name) -> Result<Vec<Change>, ApplyError>
    ensures { Steps result (outcome (create_role name.now) (seen named.now)) (λ changes. Ok changes.items) }
{
    free(named, Key::Role(name.clone()?))?;
    no_public(name)?;
    Ok(role_changes(alloc, name, new_role())?)
}

fn text_or_as_before(new: &Option<Text>, old: &Option<Text>) -> Result<Option<Text>, AllocError>
    ensures { IfOk result (λ text. text ≡ or_as_before new.now old.now) }
{
    match new {
        Some(text) => Ok(Some(text.clone()?)),
        None => old.clone(),
    }
}

// The attributes that are named, and else those of before.
fn role_changed(changes: &RoleChanges, role: &Role) -> Result<Role, AllocError>
    ensures { IfOk result (λ changed. changed ≡ role_changed changes.now role.now) }
{
    Ok(Role {
        superuser: changes.superuser.unwrap_or(role.superuser),
        inherit: changes.inherit.unwrap_or(role.inherit),
        create_role: changes.create_role.unwrap_or(role.create_role),
        create_db: changes.create_db.unwrap_or(role.create_db),
        login: changes.login.unwrap_or(role.login),
        replication: changes.replication.unwrap_or(role.replication),
        bypass_rls: changes.bypass_rls.unwrap_or(role.bypass_rls),
        limit: changes.limit.unwrap_or(role.limit),
        password: text_or_as_before(&changes.password, &role.password)?,
        valid_until: text_or_as_before(&changes.valid_until, &role.valid_until)?,
    })
}

fn changed_role(
    alloc: Global,
    name: &Name,
    changes: &RoleChanges,
    role: &Role,
) -> Result<Vec<Change>, AllocError>
    ensures { IfOk result (λ made. made.items ≡ (key.Role name.now, Some (value.Role (role_changed changes.now role.now))) ∷ []) }
{
    let role = role_changed(changes, role)?;
    role_changes(alloc, name, role)
}

/// ALTER ROLE.
pub fn alter_role(
    alloc: Global,
    named: &NamedMap,
    name: &Name,
    changes: &RoleChanges,
) -> Result<Vec<Change>, ApplyError>
    ensures { Steps result (outcome (alter_role name.now changes.now) (seen named.now)) (λ made. Ok made.items) }
{
    let role = needs_role(named, name)?;
    Ok(changed_role(alloc, name, changes, role)?)
}

// The grantor is there, where one is given.
fn needs_grantor(named: &NamedMap, grantor: &Option<Name>) -> Result<(), ApplyError>
    ensures { (next : Tree) → Steps result (outcome (needs_grantor grantor.now next) (seen named.now)) (λ _. outcome next (seen named.now)) }
{
    match grantor {
        Some(name) => needs(named, Key::Role(name.clone()?)),
        None => Ok(()),
    }
}

/// What a membership allows, as GRANT says it.
#[derive(Clone, Copy)]
pub struct MemberOptions {
    /// ADMIN.
    pub admin: bool,
    /// INHERIT; where it is left out the member's own attribute stands for it.
    pub inherit: Option<bool>,
    /// SET.
    pub set: bool,
}

// The key of a membership. The boot role is the grantor where none is given.
fn member_key(
    boot: &Name,
    role: &Name,
    member: &Name,
    grantor: &Option<Name>,
) -> Result<Key, AllocError>
    ensures { IfOk result (λ k. k ≡ key.Member role.now member.now (unwrap_or grantor.now boot.now)) }
{
    let grantor = match grantor {
        Some(name) => name.clone()?,
        None => boot.clone()?,
    };
    Ok(Key::Member(role.clone()?, member.clone()?, grantor))
}

// The grantor is there, and the membership is made.
fn grant_member(
    alloc: Global,
    named: &NamedMap,
    boot: &Name,
    role: &Name,
    member: &Name,
    grantor: &Option<Name>,
    options: MemberOptions,
    inherits: bool,
) -> Result<Vec<Change>, ApplyError>
    ensures { Steps result (outcome (needs_grantor grantor.now (sets ((key.Member role.now member.now (unwrap_or grantor.now boot.now), Some (value.Member (record { admin = options.admin; inherit = unwrap_or options.inherit inherits; «set» = options.«set» }))) ∷ []))) (seen named.now)) (λ changes. Ok changes.items) }
{
    needs_grantor(named, grantor)?;
    let key = member_key(boot, role, member, grantor)?;
    let value = Value::Member(Membership {
        admin: options.admin,
        inherit: options.inherit.unwrap_or(inherits),
        set: options.set,
    });
    Ok(one(alloc, key, value)?)
}

/// GRANT of a role to a member, by a grantor, which is the boot role where none is given. It replaces the options of a
/// membership that is there.
pub fn grant_role(
    alloc: Global,
    named: &NamedMap,
    boot: &Name,
    role: &Name,
    member: &Name,
    grantor: &Option<Name>,
    options: MemberOptions,
) -> Result<Vec<Change>, ApplyError>
    ensures { Steps result (outcome (grant_role boot.now role.now member.now grantor.now options.admin options.inherit options.«set») (seen named.now)) (λ changes. Ok changes.items) }
{
    needs(named, Key::Role(role.clone()?))?;
    let attributes = needs_role(named, member)?;
    Ok(grant_member(
        alloc,
        named,
        boot,
        role,
        member,
        grantor,
        options,
        attributes.inherit,
    )?)
}

fn database_changes(alloc: Global, boot: &Name, name: &Name) -> Result<Vec<Change>, AllocError>
    ensures { IfOk result (λ changes. changes.items ≡ (key.Database name.now, Some (value.Database encoding.Utf8)) ∷ (key.Owner (object.Database name.now), Some (value.Owner boot.now)) ∷ []) }
{
    let mut changes = one(
        alloc,
        Key::Database(name.clone()?),
        Value::Database(Encoding::Utf8),
    )?;
    set_owner(&mut changes, &Object::Database(name.clone()?), boot)?;
    Ok(changes)
}

/// CREATE DATABASE.
pub fn create_database(
    alloc: Global,
    named: &NamedMap,
    boot: &Name,
    name: &Name,
) -> Result<Vec<Change>, ApplyError>
    ensures { Steps result (outcome (create_database boot.now name.now) (seen named.now)) (λ changes. Ok changes.items) }
{
    free(named, Key::Database(name.clone()?))?;
    Ok(database_changes(alloc, boot, name)?)
}

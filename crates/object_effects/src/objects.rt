//! Statements about any object: a schema, owners, grants and comments.
ghost use Rattle.std.specs.Prelude.{◌≡◌, [], ◌∷◌, ◌++◌, Ok, Some, not, option_map, IfOk, OnOk};
ghost use Rattle.std.specs.FinMap.{get};
ghost use Rattle.std.specs.Option.{option_copied};
ghost use Rattle.cat_model.specs.declared.key.Key.TheVariants as key;
ghost use Rattle.cat_model.specs.declared.object.Object.TheVariants as object;
ghost use Rattle.cat_model.specs.Grants.{owner_only, schema_rights, holder_of};
ghost use Rattle.cat_model.specs.ObjectEffects.{made, create_schema, needs_owned, owned_object, grants_joined, owner_to, needs_granted, granted_object, needs_grantee, owner_in, grants_changed, change_grants, needs_commented, commented_object, comment_on};
ghost use Rattle.cat_model.specs.References.{is_system};
ghost use Rattle.cat_model.specs.declared.cause.Cause.TheVariants as cause;
ghost use Rattle.cat_model.specs.Conditions.{check, needs_table, column_in};
ghost use Rattle.cat_model.specs.Trees.{Tree, Seen, outcome, seen};
ghost use Rattle.cat_model.specs.declared.value.Value.TheVariants as value;
ghost use Rattle.eng_steps.specs.Outcomes.{Steps};
ghost use Rattle.object_effects.specs.Rightful.{changing};

use cat_model::{
    Cause, Commented, Granted, Grantee, Grants, Holder, Key, Object, Owned, QName, Rights, Value,
};
use copy_text::{Name, Text};
use eng_map::{Change, NamedMap};
use eng_steps::{
    ApplyError, ObjectKind, column_in, free, is_system, let_go_key, needs, needs_kind, needs_table,
    one, set_grants, set_owner, with_made,
};
use grant_changes::{SCHEMA_RIGHTS, granted, holder_of, joined, owner_only, revoked};
use std::alloc::{AllocError, Global};

fn schema_changes(alloc: Global, boot: &Name, name: &Name) -> Result<Vec<Change>, AllocError>
    ensures { IfOk result (λ changes. changes.items ≡ (key.Schema name.now, Some value.Schema) ∷ made (object.Schema name.now) boot.now (owner_only schema_rights)) }
{
    let grants = owner_only(alloc, SCHEMA_RIGHTS)?;
    let changes = one(alloc, Key::Schema(name.clone()?), Value::Schema)?;
    with_made(changes, &Object::Schema(name.clone()?), boot, grants)
}

// The name isn't that of a schema of the system's own.
fn no_system(name: &Name) -> Result<(), ApplyError>
    ensures { (next : Tree) → (s : Seen) → Steps result (outcome (check (not (is_system name.now)) (cause.Exists (key.Schema name.now)) next) s) (λ _. outcome next s) }
{
    if is_system(name) {
        return Err(ApplyError::Refused(Cause::Exists(Key::Schema(name.clone()?))));
    }
    Ok(())
}

/// CREATE SCHEMA.
pub fn create_schema(
    alloc: Global,
    named: &NamedMap,
    boot: &Name,
    name: &Name,
) -> Result<Vec<Change>, ApplyError>
    ensures { Steps result (outcome (create_schema boot.now name.now) (seen named.now)) (λ changes. Ok changes.items) }
{
    free(named, Key::Schema(name.clone()?))?;
    no_system(name)?;
    Ok(schema_changes(alloc, boot, name)?)
}

// The object that gets an owner is there, and of the kind that the statement names.
fn needs_owned(named: &NamedMap, what: &Owned) -> Result<(), ApplyError>
    ensures { (next : Tree) → Steps result (outcome (needs_owned what.now next) (seen named.now)) (λ _. outcome next (seen named.now)) }
{
    match what {
        Owned::Schema(name) => needs(named, Key::Schema(name.clone()?)),
        Owned::Type(q) => needs_kind(named, ObjectKind::Enum, Key::UserType(q.clone()?)),
        Owned::Domain(q) => needs_kind(named, ObjectKind::Domain, Key::UserType(q.clone()?)),
        Owned::Table(q) => needs_kind(named, ObjectKind::Owned, Key::Rel(q.clone()?)),
        Owned::Sequence(q) => needs_kind(named, ObjectKind::Sequence, Key::Rel(q.clone()?)),
        Owned::View(q) => needs_kind(named, ObjectKind::View, Key::Rel(q.clone()?)),
        Owned::Database(name) => needs(named, Key::Database(name.clone()?)),
    }
}

fn owned_object(what: &Owned) -> Result<Object, AllocError>
    ensures { IfOk result (λ o. o ≡ owned_object what.now) }
{
    match what {
        Owned::Schema(name) => Ok(Object::Schema(name.clone()?)),
        Owned::Type(q) | Owned::Domain(q) => Ok(Object::Type(q.clone()?)),
        Owned::Table(q) | Owned::Sequence(q) | Owned::View(q) => Ok(Object::Relation(q.clone()?)),
        Owned::Database(name) => Ok(Object::Database(name.clone()?)),
    }
}

// The grants of an object whose owner this role becomes. A database has none.
fn set_joined(
    changes: &mut Vec<Change>,
    object: &Object,
    role: &Name,
    grants: Option<&Value>,
) -> Result<(), AllocError>
    ensures { OnOk result (changes.new.items ≡ changes.old.items ++ grants_joined object.now role.now (option_copied grants.entry)) }
{
    match grants {
        Some(Value::Grants(grants)) => {
            let grants = joined(grants, role)?;
            set_grants(changes, object, grants)
        }
        _ => Ok(()),
    }
}

fn owner_changes(
    alloc: Global,
    named: &NamedMap,
    object: &Object,
    role: &Name,
) -> Result<Vec<Change>, AllocError>
    ensures { IfOk result (λ changes. changes.items ≡ (key.Owner object.now, Some (value.Owner role.now)) ∷ grants_joined object.now role.now (get named.now (key.Acl object.now))) }
{
    let mut changes = Vec::new(alloc);
    set_owner(&mut changes, object, role)?;
    let grants = grants_under(named, object)?;
    set_joined(&mut changes, object, role, grants)?;
    Ok(changes)
}

fn owned_changes(
    alloc: Global,
    named: &NamedMap,
    what: &Owned,
    role: &Name,
) -> Result<Vec<Change>, AllocError>
    ensures { IfOk result (λ changes. changes.items ≡ (key.Owner (owned_object what.now), Some (value.Owner role.now)) ∷ grants_joined (owned_object what.now) role.now (get named.now (key.Acl (owned_object what.now)))) }
{
    let object = owned_object(what)?;
    owner_changes(alloc, named, &object, role)
}

/// ALTER .. OWNER TO.
pub fn owner_to(
    alloc: Global,
    named: &NamedMap,
    what: &Owned,
    role: &Name,
) -> Result<Vec<Change>, ApplyError>
    ensures { Steps result (outcome (owner_to what.now role.now) (seen named.now)) (λ changes. Ok changes.items) }
{
    needs_owned(named, what)?;
    needs(named, Key::Role(role.clone()?))?;
    Ok(owned_changes(alloc, named, what, role)?)
}

/// What a statement changes of the rights that a grantee has on an object.
#[derive(Clone, Copy)]
pub enum GrantChange {
    /// GRANT: these rights more, WITH GRANT OPTION or not.
    Grant(Rights, bool),
    /// REVOKE: these rights less, and the options to grant them.
    Revoke(Rights),
}

// The object of a grant is there, and of the kind that the statement names.
fn needs_granted(named: &NamedMap, what: &Granted) -> Result<(), ApplyError>
    ensures { (next : Tree) → Steps result (outcome (needs_granted what.now next) (seen named.now)) (λ _. outcome next (seen named.now)) }
{
    match what {
        Granted::Table(q) => needs_kind(named, ObjectKind::TableOrView, Key::Rel(q.clone()?)),
        Granted::Sequence(q) => needs_kind(named, ObjectKind::Sequence, Key::Rel(q.clone()?)),
        Granted::Schema(name) => needs(named, Key::Schema(name.clone()?)),
        Granted::Type(q) => needs_kind(named, ObjectKind::EnumOrDomain, Key::UserType(q.clone()?)),
    }
}

fn granted_object(what: &Granted) -> Result<Object, AllocError>
    ensures { IfOk result (λ o. o ≡ granted_object what.now) }
{
    match what {
        Granted::Table(q) | Granted::Sequence(q) => Ok(Object::Relation(q.clone()?)),
        Granted::Schema(name) => Ok(Object::Schema(name.clone()?)),
        Granted::Type(q) => Ok(Object::Type(q.clone()?)),
    }
}

// The role of a grantee is there.
fn needs_grantee(named: &NamedMap, who: &Grantee) -> Result<(), ApplyError>
    ensures { (next : Tree) → Steps result (outcome (needs_grantee who.now next) (seen named.now)) (λ _. outcome next (seen named.now)) }
{
    match who {
        Grantee::Public => Ok(()),
        Grantee::Role(name) => needs(named, Key::Role(name.clone()?)),
    }
}

// The bytes of an owner's name; none where there is no owner.
fn owner_in(owner: Option<&Value>) -> &[u8]
    ensures { result.now ≡ owner_in (option_copied owner.entry) }
{
    match owner {
        Some(Value::Owner(name)) => name.as_bytes(),
        _ => b"",
    }
}

fn changed_grants(
    change: GrantChange,
    holder: &Holder,
    grants: &Grants,
) -> Result<Grants, AllocError>
    ensures { IfOk result (λ changed. changed ≡ changing change holder.now grants.now) }
{
    match change {
        GrantChange::Grant(rights, option) => granted(grants, holder, rights, option),
        GrantChange::Revoke(rights) => revoked(grants, holder, rights),
    }
}

// What the owner of an object is, and what the grants on it are, where there are any.
fn owner_under<'a>(named: &'a NamedMap, object: &Object) -> Result<Option<&'a Value>, AllocError>
    ensures { IfOk result (λ v. option_copied v ≡ get named.now (key.Owner object.now)) }
{
    let key = Key::Owner(object.clone()?);
    let found = named.get(&key);
    let_go_key(key);
    Ok(found)
}

fn grants_under<'a>(named: &'a NamedMap, object: &Object) -> Result<Option<&'a Value>, AllocError>
    ensures { IfOk result (λ v. option_copied v ≡ get named.now (key.Acl object.now)) }
{
    let key = Key::Acl(object.clone()?);
    let found = named.get(&key);
    let_go_key(key);
    Ok(found)
}

fn grants_changes(
    alloc: Global,
    object: &Object,
    holder: &Holder,
    change: GrantChange,
    grants: Option<&Value>,
) -> Result<Vec<Change>, AllocError>
    ensures { IfOk result (λ changes. changes.items ≡ grants_changed object.now (changing change holder.now) (option_copied grants.entry)) }
{
    let mut changes = Vec::new(alloc);
    if let Some(Value::Grants(grants)) = grants {
        let grants = changed_grants(change, holder, grants)?;
        set_grants(&mut changes, object, grants)?;
    }
    Ok(changes)
}

fn holder_changes(
    alloc: Global,
    named: &NamedMap,
    object: &Object,
    who: &Grantee,
    change: GrantChange,
) -> Result<Vec<Change>, AllocError>
    ensures { IfOk result (λ changes. changes.items ≡ grants_changed object.now (changing change (holder_of (owner_in (get named.now (key.Owner object.now))) who.now)) (get named.now (key.Acl object.now))) }
{
    let owner = owner_under(named, object)?;
    let grants = grants_under(named, object)?;
    let holder = holder_of(owner_in(owner), who)?;
    grants_changes(alloc, object, &holder, change, grants)
}

fn granted_changes(
    alloc: Global,
    named: &NamedMap,
    what: &Granted,
    who: &Grantee,
    change: GrantChange,
) -> Result<Vec<Change>, AllocError>
    ensures { IfOk result (λ changes. changes.items ≡ grants_changed (granted_object what.now) (changing change (holder_of (owner_in (get named.now (key.Owner (granted_object what.now)))) who.now)) (get named.now (key.Acl (granted_object what.now)))) }
{
    let object = granted_object(what)?;
    holder_changes(alloc, named, &object, who, change)
}

/// GRANT and REVOKE of rights on an object: the grantee's item of its grants is changed, which is the owner's where the
/// grantee is the owner.
pub fn change_grants(
    alloc: Global,
    named: &NamedMap,
    what: &Granted,
    who: &Grantee,
    change: GrantChange,
) -> Result<Vec<Change>, ApplyError>
    ensures { Steps result (outcome (change_grants what.now who.now (changing change)) (seen named.now)) (λ changes. Ok changes.items) }
{
    needs_granted(named, what)?;
    needs_grantee(named, who)?;
    Ok(granted_changes(alloc, named, what, who, change)?)
}

// The column of a table is there.
fn needs_column(named: &NamedMap, q: &QName, column: &Name) -> Result<(), ApplyError>
    ensures { (next : Tree) → Steps result (outcome (needs_table q.now (λ columns. column_in columns column.now next)) (seen named.now)) (λ _. outcome next (seen named.now)) }
{
    let columns = needs_table(named, q)?;
    column_in(columns, column)
}

// What gets a comment is there, and of the kind that the statement names.
fn needs_commented(named: &NamedMap, what: &Commented) -> Result<(), ApplyError>
    ensures { (next : Tree) → Steps result (outcome (needs_commented what.now next) (seen named.now)) (λ _. outcome next (seen named.now)) }
{
    match what {
        Commented::Schema(name) => needs(named, Key::Schema(name.clone()?)),
        Commented::Type(q) => needs_kind(named, ObjectKind::Enum, Key::UserType(q.clone()?)),
        Commented::Domain(q) => needs_kind(named, ObjectKind::Domain, Key::UserType(q.clone()?)),
        Commented::Table(q) => needs_kind(named, ObjectKind::Table, Key::Rel(q.clone()?)),
        Commented::View(q) => needs_kind(named, ObjectKind::View, Key::Rel(q.clone()?)),
        Commented::Sequence(q) => needs_kind(named, ObjectKind::Sequence, Key::Rel(q.clone()?)),
        Commented::Index(q) => needs_kind(named, ObjectKind::Index, Key::Rel(q.clone()?)),
        Commented::Column(q, column) => needs_column(named, q, column),
        Commented::Constraint(q, name) => needs(named, Key::Con(q.clone()?, name.clone()?)),
    }
}

fn commented_object(what: &Commented) -> Result<Object, AllocError>
    ensures { IfOk result (λ o. o ≡ commented_object what.now) }
{
    match what {
        Commented::Schema(name) => Ok(Object::Schema(name.clone()?)),
        Commented::Type(q) | Commented::Domain(q) => Ok(Object::Type(q.clone()?)),
        Commented::Table(q) | Commented::View(q) | Commented::Sequence(q) | Commented::Index(q) =>
            Ok(Object::Relation(q.clone()?)),
        Commented::Column(q, column) => Ok(Object::Column(q.clone()?, column.clone()?)),
        Commented::Constraint(q, name) => Ok(Object::Constraint(q.clone()?, name.clone()?)),
    }
}

fn comment_changes(
    alloc: Global,
    what: &Commented,
    text: &Option<Text>,
) -> Result<Vec<Change>, AllocError>
    ensures { IfOk result (λ changes. changes.items ≡ (key.Comment (commented_object what.now), option_map value.Comment text.now) ∷ []) }
{
    let text = text.clone()?;
    let key = Key::Comment(commented_object(what)?);
    Ok(vec![in alloc; (key, text.map(Value::Comment))]?)
}

/// COMMENT ON; without a text the comment goes.
pub fn comment_on(
    alloc: Global,
    named: &NamedMap,
    what: &Commented,
    text: &Option<Text>,
) -> Result<Vec<Change>, ApplyError>
    ensures { Steps result (outcome (comment_on what.now text.now) (seen named.now)) (λ changes. Ok changes.items) }
{
    needs_commented(named, what)?;
    Ok(comment_changes(alloc, what, text)?)
}

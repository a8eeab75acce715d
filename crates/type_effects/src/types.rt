//! Statements that make enums and domains, and what a type is at the end of its chain of domains.
ghost use Rattle.std.specs.Prelude.{◌≡◌, [], ◌∷◌, ◌++◌, ◌||◌, Ok, Some, not, false, map, IfOk, OnOk};
ghost use Rattle.std.specs.FinMap.{from_entries, insert, contains_key};
ghost use Rattle.cat_model.specs.declared.cause.Cause.TheVariants as cause;
ghost use Rattle.cat_model.specs.declared.key.Key.TheVariants as key;
ghost use Rattle.cat_model.specs.declared.object.Object.TheVariants as object;
ghost use Rattle.cat_model.specs.declared.type_name.TypeName.TheVariants.{Path};
ghost use Rattle.cat_model.specs.declared.value.Resolved.{Resolved as ResolvedValue};
ghost use Rattle.cat_model.specs.declared.value.Value.TheVariants as value;
ghost use Rattle.cat_model.specs.Conditions.{check, needs_each};
ghost use Rattle.cat_model.specs.Grants.{type_grants};
ghost use Rattle.cat_model.specs.ObjectEffects.{made};
ghost use Rattle.cat_model.specs.References.{expression_references};
ghost use Rattle.cat_model.specs.Tables.{distinct};
ghost use Rattle.cat_model.specs.Trees.{Tree, Seen, look, sets, outcome, seen};
ghost use Rattle.cat_model.specs.TypeEffects.{as_it_is, if_type, needs_type, create_enum, create_domain, add_domain_check};
ghost use Rattle.eng_steps.specs.Outcomes.{Steps};
ghost use Rattle.type_effects.specs.NewTypes.{enum_changes, enum_here, domain_of, domain_changes, domain_made, domain_here};

use cat_model::{
    Cause, CheckDef, Checks, Domain, Items, Key, Object, QName, Resolved, TypeName, Value,
};
use copy_text::{Name, Text};
use distinct_names::{are_distinct, are_distinct_texts};
use eng_map::{Change, NamedMap};
use eng_steps::{
    ApplyError, check_refs, default_refs, free, is_system, let_go_key, needs, needs_but_type,
    needs_domain, needs_each, one, with_made,
};
use grant_changes::type_grants;
use std::alloc::{AllocError, Global};
use stmt_refs::expr_refs;

// A type that is what it is.
fn as_it_is(name: &TypeName) -> Result<Resolved, AllocError>
    ensures { IfOk result (λ r. r ≡ as_it_is name.now) }
{
    Ok(Resolved {
        type_name: name.clone()?,
        labels: None,
        not_null: false,
    })
}

// The same labels once more.
fn same_labels(labels: &Items<Text>) -> Result<Items<Text>, AllocError>
    ensures { IfOk result (λ same. same ≡ labels.now) }
{
    labels.clone()
}

// An enum of this path.
fn enum_end(q: &QName, labels: &Items<Text>) -> Result<Resolved, AllocError>
    ensures { IfOk result (λ r. r ≡ record { type_name = Path q.now; labels = Some labels.now; not_null = false }) }
{
    let labels = same_labels(labels)?;
    Ok(Resolved {
        type_name: TypeName::Path(q.clone()?),
        labels: Some(labels),
        not_null: false,
    })
}

// What a domain is at the end of its chain.
fn domain_end(domain: &Domain) -> Result<Resolved, AllocError>
    ensures { IfOk result (λ r. r ≡ record domain.now.resolved { not_null = domain.now.resolved.not_null || domain.now.not_null }) }
{
    let mut end = domain.resolved.clone()?;
    end.not_null = domain.resolved.not_null || domain.not_null;
    Ok(end)
}

// The same of an enum or a domain, which is there, else `Absent`.
fn needs_user_type(named: &NamedMap, q: &QName) -> Result<Resolved, ApplyError>
    ensures { (next : ResolvedValue → Tree) → Steps result (outcome (look (key.UserType q.now) (if_type q.now next)) (seen named.now)) (λ r. outcome (next r) (seen named.now)) }
{
    let key = Key::UserType(q.clone()?);
    match named.get(&key) {
        Some(Value::Enum(labels)) => {
            let_go_key(key);
            Ok(enum_end(q, labels)?)
        }
        Some(Value::Domain(domain)) => {
            let_go_key(key);
            Ok(domain_end(domain)?)
        }
        _ => Err(ApplyError::Refused(Cause::Absent(key))),
    }
}

/// What a type is at the end of its chain of domains. An enum or a domain is there, else `Absent`; any other type is what
/// it is.
pub fn needs_type(named: &NamedMap, name: &TypeName) -> Result<Resolved, ApplyError>
    ensures { (next : ResolvedValue → Tree) → Steps result (outcome (needs_type name.now next) (seen named.now)) (λ r. outcome (next r) (seen named.now)) }
{
    match name {
        TypeName::Path(q) if !is_system(&q.schema) => needs_user_type(named, q),
        _ => Ok(as_it_is(name)?),
    }
}

// The labels differ, else the enum is there already.
fn distinct_labels(alloc: Global, q: &QName, labels: &Items<Text>) -> Result<(), ApplyError>
    ensures { (next : Tree) → (s : Seen) → Steps result (outcome (check (distinct labels.now) (cause.Exists (key.UserType q.now)) next) s) (λ _. outcome next s) }
{
    if !are_distinct_texts(alloc, labels.as_slice())? {
        return Err(ApplyError::Refused(Cause::Exists(Key::UserType(q.clone()?))));
    }
    Ok(())
}

// These changes, and behind them what each new enum or domain gets: its owner and its grants.
fn with_made_type(
    alloc: Global,
    changes: Vec<Change>,
    boot: &Name,
    q: &QName,
) -> Result<Vec<Change>, AllocError>
    ensures { IfOk result (λ all. all.items ≡ changes.items ++ made (object.Type q.now) boot.now type_grants) }
{
    let object = Object::Type(q.clone()?);
    let grants = type_grants(alloc)?;
    with_made(changes, &object, boot, grants)
}

fn enum_changes(
    alloc: Global,
    boot: &Name,
    q: &QName,
    labels: &Items<Text>,
) -> Result<Vec<Change>, AllocError>
    ensures { IfOk result (λ changes. changes.items ≡ enum_changes boot.now q.now labels.now) }
{
    let path = q.clone()?;
    let labels = same_labels(labels)?;
    let changes = one(alloc, Key::UserType(path), Value::Enum(labels))?;
    with_made_type(alloc, changes, boot, q)
}

// No enum or domain has the path, the labels differ, and the enum is made.
fn enum_here(
    alloc: Global,
    named: &NamedMap,
    boot: &Name,
    q: &QName,
    labels: &Items<Text>,
) -> Result<Vec<Change>, ApplyError>
    ensures { Steps result (outcome (enum_here boot.now q.now labels.now) (seen named.now)) (λ changes. Ok changes.items) }
{
    free(named, Key::UserType(q.clone()?))?;
    distinct_labels(alloc, q, labels)?;
    Ok(enum_changes(alloc, boot, q, labels)?)
}

/// CREATE TYPE .. AS ENUM.
pub fn create_enum(
    alloc: Global,
    named: &NamedMap,
    boot: &Name,
    q: &QName,
    labels: &Items<Text>,
) -> Result<Vec<Change>, ApplyError>
    ensures { Steps result (outcome (create_enum boot.now q.now labels.now) (seen named.now)) (λ changes. Ok changes.items) }
{
    needs(named, Key::Schema(q.schema.clone()?))?;
    enum_here(alloc, named, boot, q, labels)
}

// ---- domains

/// A domain as CREATE DOMAIN says it.
#[derive(Clone, Copy)]
pub struct NewDomain<'a> {
    /// The type that it is based on.
    pub base: &'a TypeName,
    /// Whether it takes no null.
    pub not_null: bool,
    /// The expression of its default.
    pub default: &'a Option<Text>,
    /// Its checks.
    pub checks: &'a [CheckDef],
}

/// The names of checks. The only error is want of memory.
pub fn check_names(alloc: Global, checks: &[CheckDef]) -> Result<Vec<Name>, AllocError>
    ensures { IfOk result (λ names. names.items ≡ map (λ c. c.name) checks.now) }
{
    let mut names = Vec::new(alloc);
    for check in checks {
        names.push(check.name.clone()?)?;
    }
    Ok(names)
}

// The checks have names of their own, else the domain is there already.
fn distinct_checks(alloc: Global, q: &QName, checks: &[CheckDef]) -> Result<(), ApplyError>
    ensures { (next : Tree) → (s : Seen) → Steps result (outcome (check (distinct (map (λ c. c.name) checks.now)) (cause.Exists (key.UserType q.now)) next) s) (λ _. outcome next s) }
{
    let names = check_names(alloc, checks)?;
    if !are_distinct(alloc, &names)? {
        return Err(ApplyError::Refused(Cause::Exists(Key::UserType(q.clone()?))));
    }
    Ok(())
}

// One check more, in place of one of its name.
fn put_check(named: &mut Checks, check: &CheckDef) -> Result<(), AllocError>
    ensures { OnOk result (named.new ≡ insert named.old check.now.name check.now.text) }
{
    named.put(check.name.clone()?, check.text.clone()?)
}

// The checks by name, of which the first of a name counts.
fn checks_by_name(alloc: Global, checks: &[CheckDef]) -> Result<Checks, AllocError>
    ensures { IfOk result (λ named. named ≡ from_entries (map (λ c. (c.name, c.text)) checks.now)) }
{
    let mut named = Checks::new(alloc);
    let mut left = checks.len();
    'checks: while 0 < left {
        left -= 1;
        put_check(&mut named, &checks[left])?;
    }
    Ok(named)
}

fn new_domain(alloc: Global, new: NewDomain<'_>, resolved: &Resolved) -> Result<Domain, AllocError>
    ensures { IfOk result (λ d. d ≡ domain_of new.entry.base.now new.entry.not_null new.entry.default.now new.entry.checks.now resolved.now) }
{
    let checks = checks_by_name(alloc, new.checks)?;
    let default = new.default.clone()?;
    let base = new.base.clone()?;
    Ok(Domain {
        base,
        resolved: resolved.clone()?,
        not_null: new.not_null,
        default,
        checks,
    })
}

fn domain_changes(
    alloc: Global,
    boot: &Name,
    q: &QName,
    new: NewDomain<'_>,
    resolved: &Resolved,
) -> Result<Vec<Change>, AllocError>
    ensures { IfOk result (λ changes. changes.items ≡ domain_changes boot.now q.now new.entry.base.now new.entry.not_null new.entry.default.now new.entry.checks.now resolved.now) }
{
    let path = q.clone()?;
    let domain = new_domain(alloc, new, resolved)?;
    let changes = one(alloc, Key::UserType(path), Value::Domain(domain))?;
    with_made_type(alloc, changes, boot, q)
}

// The references of the default and of the checks are there, and the domain is made.
fn make_domain(
    alloc: Global,
    named: &NamedMap,
    boot: &Name,
    q: &QName,
    new: NewDomain<'_>,
    resolved: &Resolved,
) -> Result<Vec<Change>, ApplyError>
    ensures { Steps result (outcome (domain_made boot.now q.now new.entry.base.now new.entry.not_null new.entry.default.now new.entry.checks.now resolved.now) (seen named.now)) (λ changes. Ok changes.items) }
{
    needs_each(named, default_refs(alloc, new.default)?)?;
    needs_but_type(alloc, named, q, check_refs(alloc, new.checks)?)?;
    Ok(domain_changes(alloc, boot, q, new, resolved)?)
}

// The base is there, and the domain is made.
fn base_domain(
    alloc: Global,
    named: &NamedMap,
    boot: &Name,
    q: &QName,
    new: NewDomain<'_>,
) -> Result<Vec<Change>, ApplyError>
    ensures { Steps result (outcome (needs_type new.entry.base.now (domain_made boot.now q.now new.entry.base.now new.entry.not_null new.entry.default.now new.entry.checks.now)) (seen named.now)) (λ changes. Ok changes.items) }
{
    let resolved = needs_type(named, new.base)?;
    make_domain(alloc, named, boot, q, new, &resolved)
}

// No enum or domain has the path, the checks have names of their own, and the domain is made.
fn domain_here(
    alloc: Global,
    named: &NamedMap,
    boot: &Name,
    q: &QName,
    new: NewDomain<'_>,
) -> Result<Vec<Change>, ApplyError>
    ensures { Steps result (outcome (domain_here boot.now q.now new.entry.base.now new.entry.not_null new.entry.default.now new.entry.checks.now) (seen named.now)) (λ changes. Ok changes.items) }
{
    free(named, Key::UserType(q.clone()?))?;
    distinct_checks(alloc, q, new.checks)?;
    base_domain(alloc, named, boot, q, new)
}

/// CREATE DOMAIN.
pub fn create_domain(
    alloc: Global,
    named: &NamedMap,
    boot: &Name,
    q: &QName,
    new: NewDomain<'_>,
) -> Result<Vec<Change>, ApplyError>
    ensures { Steps result (outcome (create_domain boot.now q.now new.entry.base.now new.entry.not_null new.entry.default.now new.entry.checks.now) (seen named.now)) (λ changes. Ok changes.items) }
{
    needs(named, Key::Schema(q.schema.clone()?))?;
    domain_here(alloc, named, boot, q, new)
}

// The check's name is new, else the domain is there already.
fn new_check(q: &QName, domain: &Domain, name: &Name) -> Result<(), ApplyError>
    ensures { (next : Tree) → (s : Seen) → Steps result (outcome (check (not (contains_key domain.now.checks name.now)) (cause.Exists (key.UserType q.now)) next) s) (λ _. outcome next s) }
{
    if domain.checks.get(name).is_some() {
        return Err(ApplyError::Refused(Cause::Exists(Key::UserType(q.clone()?))));
    }
    Ok(())
}

fn with_check(domain: &Domain, name: &Name, text: &Text) -> Result<Domain, AllocError>
    ensures { IfOk result (λ d. d ≡ record domain.now { checks = insert domain.now.checks name.now text.now }) }
{
    let name = name.clone()?;
    let text = text.clone()?;
    let mut domain = domain.clone()?;
    domain.checks.put(name, text)?;
    Ok(domain)
}

fn checked_changes(
    alloc: Global,
    q: &QName,
    domain: &Domain,
    name: &Name,
    text: &Text,
) -> Result<Vec<Change>, AllocError>
    ensures { IfOk result (λ changes. changes.items ≡ (key.UserType q.now, Some (value.Domain (record domain.now { checks = insert domain.now.checks name.now text.now }))) ∷ []) }
{
    let path = q.clone()?;
    let domain = with_check(domain, name, text)?;
    one(alloc, Key::UserType(path), Value::Domain(domain))
}

// The check is made of a domain that is there.
fn add_check_to(
    alloc: Global,
    named: &NamedMap,
    q: &QName,
    domain: &Domain,
    name: &Name,
    text: &Text,
) -> Result<Vec<Change>, ApplyError>
    ensures { Steps result (outcome (check (not (contains_key domain.now.checks name.now)) (cause.Exists (key.UserType q.now)) (needs_each (expression_references text.now) (sets ((key.UserType q.now, Some (value.Domain (record domain.now { checks = insert domain.now.checks name.now text.now }))) ∷ [])))) (seen named.now)) (λ changes. Ok changes.items) }
{
    new_check(q, domain, name)?;
    needs_each(named, expr_refs(alloc, text.as_bytes())?)?;
    Ok(checked_changes(alloc, q, domain, name, text)?)
}

/// ALTER DOMAIN .. ADD CONSTRAINT .. CHECK.
pub fn add_domain_check(
    alloc: Global,
    named: &NamedMap,
    q: &QName,
    name: &Name,
    text: &Text,
) -> Result<Vec<Change>, ApplyError>
    ensures { Steps result (outcome (add_domain_check q.now name.now text.now) (seen named.now)) (λ changes. Ok changes.items) }
{
    let domain = needs_domain(named, q)?;
    add_check_to(alloc, named, q, domain, name, text)
}

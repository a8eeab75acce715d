//! What the rows of pg_type, with the labels of enums and the checks of domains, give.
ghost use Rattle.std.specs.Prelude.{◌≡◌, [], ◌∷◌, ◌++◌, IfOk, OnOk};
ghost use Rattle.std.specs.List.{flat_map};
ghost use Rattle.cat_model.specs.declared.key.Key.TheVariants as key;
ghost use Rattle.cat_naming.specs.Types.{domain_of, type_value, type_rights, owned_type, type_entries};

use crate::checks::checks_of;
use crate::entries::{push_grants, push_owner};
use crate::texts::{default_of, typed};
use cat_lookups::Lookups;
use cat_model::{Domain, Key, Object, QName, Resolved, TypeName, Value};
use cat_names::GrantKind;
use cat_rows::TypeRow;
use copy_text::Name;
use eng_map::{Entries, push_entry};
use std::alloc::{AllocError, Global};

// A domain over this type.
fn domain_of(
    alloc: Global,
    lookups: &Lookups<'_>,
    row: &TypeRow,
    base: TypeName,
    resolved: Resolved,
) -> Result<Domain, AllocError>
    ensures { IfOk result (λ domain. domain ≡ domain_of lookups.now row.now (base, resolved)) }
{
    let default = default_of(alloc, &row.typdefault)?;
    let checks = checks_of(alloc, lookups, row.oid)?;
    Ok(Domain {
        base,
        resolved,
        not_null: row.typnotnull,
        default,
        checks,
    })
}

// An enum's labels, or a domain.
fn type_value(
    alloc: Global,
    lookups: &Lookups<'_>,
    row: &TypeRow,
) -> Result<Option<Value>, AllocError>
    ensures { IfOk result (λ value. value ≡ type_value lookups.now row.now) }
{
    if row.typtype.byte() != b'd' {
        let labels = lookups.ends().labels_of(alloc, row.oid)?;
        return Ok(Some(Value::Enum(labels)));
    }
    match typed(alloc, lookups, row.typbasetype, &row.basetext)? {
        Some((base, resolved)) => {
            let domain = domain_of(alloc, lookups, row, base, resolved)?;
            Ok(Some(Value::Domain(domain)))
        }
        None => Ok(None),
    }
}

// Adds the owner and the grants of the type of this path.
fn push_rights(
    alloc: Global,
    entries: &mut Entries,
    row: &TypeRow,
    path: &QName,
    owner: &Name,
) -> Result<(), AllocError>
    ensures { OnOk result (entries.new.items ≡ entries.old.items ++ type_rights row.now path.now owner.now) }
{
    push_owner(entries, Object::Type(path.clone()?), owner)?;
    let object = Object::Type(path.clone()?);
    push_grants(alloc, entries, GrantKind::Type, object, owner, &row.typacl)
}

// Adds a type under a path, with the owner and the grants of the type of that path.
fn push_value(
    alloc: Global,
    entries: &mut Entries,
    row: &TypeRow,
    under: QName,
    value: Value,
    path: &QName,
    owner: &Name,
) -> Result<(), AllocError>
    ensures { OnOk result (entries.new.items ≡ entries.old.items ++ (key.UserType under, value) ∷ type_rights row.now path.now owner.now) }
{
    push_entry(entries, Key::UserType(under), value)?;
    push_rights(alloc, entries, row, path, owner)
}

// Adds a type of this path and owner, with its owner and its grants.
fn push_owned(
    alloc: Global,
    entries: &mut Entries,
    lookups: &Lookups<'_>,
    row: &TypeRow,
    path: &QName,
    owner: &Name,
) -> Result<(), AllocError>
    ensures { OnOk result (entries.new.items ≡ entries.old.items ++ owned_type lookups.now row.now path.now owner.now) }
{
    let under = path.clone()?;
    match type_value(alloc, lookups, row)? {
        Some(value) => push_value(alloc, entries, row, under, value, path, owner),
        None => Ok(()),
    }
}

// Adds a type, its owner and its grants.
fn push_type(
    alloc: Global,
    entries: &mut Entries,
    lookups: &Lookups<'_>,
    row: &TypeRow,
) -> Result<(), AllocError>
    ensures { OnOk result (entries.new.items ≡ entries.old.items ++ type_entries lookups.now row.now) }
{
    let Some(path) = lookups.book().type_path(row)? else {
        return Ok(());
    };
    match lookups.book().role_name(row.typowner) {
        Some(owner) => push_owned(alloc, entries, lookups, row, &path, owner),
        None => Ok(()),
    }
}

/// Adds what the types give.
pub(crate) fn add_types(
    alloc: Global,
    entries: &mut Entries,
    lookups: &Lookups<'_>,
    rows: &[TypeRow],
) -> Result<(), AllocError>
    ensures { OnOk result (entries.new.items ≡ entries.old.items ++ flat_map (type_entries lookups.now) rows.now) }
{
    for row in rows {
        push_type(alloc, entries, lookups, row)?;
    }
    Ok(())
}

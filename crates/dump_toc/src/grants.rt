//! Grants on objects.
ghost use Rattle.std.specs.Prelude.{◌≡◌, option_map, IfOk};
ghost use Rattle.std.specs.Option.{option_and_then};
ghost use Rattle.dump_toc.specs.Rights.{granted_as, grant_kind, acl_of, granted_draft, rights_draft};

use crate::draft::{Draft, beside, only};
use crate::owner::owner_of;
use crate::tags::grants_tag;
use acl_text::Acl;
use cat_model::Granted;
use cat_names::GrantKind;
use copy_text::Name;
use dump_grants::grants_text;
use dump_rows::DumpRows;
use dump_stmts::path_of;
use graph_parts::{Obj, ObjKind};
use std::alloc::{AllocError, Global};

/// The section of what is restored with what it belongs to.
const NONE: u8 = 1;

// What rights are granted on; an object of another kind has none.
fn granted_as(object: &Obj) -> Result<Option<Granted>, AllocError>
    ensures { IfOk result (λ what. what ≡ granted_as object.now object.now.kind) }
{
    match object.kind {
        ObjKind::Schema => match &object.name {
            Some(name) => Ok(Some(Granted::Schema(name.clone()?))),
            None => Ok(None),
        },
        ObjKind::UserType => Ok(path_of(object)?.map(Granted::Type)),
        ObjKind::Table | ObjKind::View | ObjKind::Dummy => {
            Ok(path_of(object)?.map(Granted::Table))
        }
        ObjKind::Sequence => Ok(path_of(object)?.map(Granted::Sequence)),
        _ => Ok(None),
    }
}

// The rights that there are on an object of a kind.
fn grant_kind(kind: ObjKind) -> GrantKind
    ensures { result ≡ grant_kind kind }
{
    match kind {
        ObjKind::Schema => GrantKind::Schema,
        ObjKind::UserType => GrantKind::Type,
        ObjKind::Sequence => GrantKind::Sequence,
        _ => GrantKind::Table,
    }
}

// The list of rights on an object.
fn acl_of<'a>(rows: &DumpRows<'a>, object: &Obj) -> Option<&'a Option<Acl>>
    ensures { option_map (λ a. a.now) result ≡ acl_of rows.now object.now object.now.kind }
{
    match object.kind {
        ObjKind::Schema => match rows.book().schema_of(object.id.oid) {
            Some(row) => Some(&row.nspacl),
            None => None,
        },
        ObjKind::UserType => match rows.book().type_of(object.id.oid) {
            Some(row) => Some(&row.typacl),
            None => None,
        },
        _ => match rows.book().class_of(object.id.oid) {
            Some(row) => Some(&row.relacl),
            None => None,
        },
    }
}

// The draft of the grants on what is granted, where they aren't those of a new object.
fn granted_draft(
    alloc: Global,
    rows: &DumpRows<'_>,
    object: &Obj,
    place: u32,
    owner: &Name,
    acl: &Option<Acl>,
    what: &Granted,
) -> Result<Option<Draft>, AllocError>
    ensures { IfOk result (λ draft. draft ≡ granted_draft rows.now object.now place owner.now acl.now what.now) }
{
    let Some(defn) = grants_text(alloc, grant_kind(object.kind), what, owner, acl)? else {
        return Ok(None);
    };
    let tag = grants_tag(alloc, what)?;
    let needs = only(alloc, place)?;
    let draft = beside(alloc, rows, object, b"ACL", NONE, tag, defn, needs)?;
    Ok(Some(draft))
}

/// The draft of the grants on the object at a place, where they aren't those of a new object.
#[tactic(auto, unfolding(crate::specs::Rights::rights_draft))]
pub(crate) fn rights_draft(
    alloc: Global,
    rows: &DumpRows<'_>,
    object: &Obj,
    place: u32,
) -> Result<Option<Draft>, AllocError>
    ensures { IfOk result (λ draft. draft ≡ rights_draft rows.now object.now place) }
{
    let Some(acl) = acl_of(rows, object) else {
        return Ok(None);
    };
    let Some(owner) = owner_of(rows, object) else {
        return Ok(None);
    };
    match granted_as(object)? {
        Some(what) => granted_draft(alloc, rows, object, place, owner, acl, &what),
        None => Ok(None),
    }
}

//! The owners of objects.
ghost use Rattle.std.specs.Prelude.{◌≡◌, option_map, IfOk};
ghost use Rattle.cat_names.specs.Lookups.{role_name};
ghost use Rattle.dump_toc.specs.Owners.{relation_of, relation_owner, owner_oid, owner_of};

use copy_text::{Name, Text};
use dump_rows::DumpRows;
use dump_stmts::text_of;
use graph_parts::{Obj, ObjKind};
use std::alloc::{AllocError, Global};

// The relation that an object is, or belongs to.
fn relation_of(rows: &DumpRows<'_>, object: &Obj) -> Option<u32>
    ensures { result ≡ relation_of rows.now object.now object.now.kind }
{
    match object.kind {
        ObjKind::Table
        | ObjKind::View
        | ObjKind::Dummy
        | ObjKind::Sequence
        | ObjKind::TableData
        | ObjKind::SeqValue => Some(object.id.oid),
        ObjKind::Default => rows.default_of(object.id.oid).map(|row| row.adrelid),
        ObjKind::Constraint | ObjKind::Foreign => rows
            .book()
            .constraint_of(object.id.oid)
            .map(|row| row.conrelid),
        ObjKind::Index => rows.index_of(object.id.oid).map(|row| row.indrelid),
        ObjKind::Rule => rows.rewrite_of(object.id.oid).map(|row| row.ev_class),
        ObjKind::Schema | ObjKind::UserType | ObjKind::PreData | ObjKind::PostData => None,
    }
}

// The oid of the role that owns a relation.
fn relation_owner(rows: &DumpRows<'_>, relation: u32) -> Option<u32>
    ensures { result ≡ relation_owner rows.now relation }
{
    rows.book().class_of(relation).map(|row| row.relowner)
}

// The oid of the role that owns an object, or the relation that it belongs to.
fn owner_oid(rows: &DumpRows<'_>, object: &Obj) -> Option<u32>
    ensures { result ≡ owner_oid rows.now object.now object.now.kind }
{
    match object.kind {
        ObjKind::Schema => rows.book().schema_of(object.id.oid).map(|row| row.nspowner),
        ObjKind::UserType => rows.book().type_of(object.id.oid).map(|row| row.typowner),
        _ => match relation_of(rows, object) {
            Some(relation) => relation_owner(rows, relation),
            None => None,
        },
    }
}

/// The name of the role that owns an object, or the relation that it belongs to.
#[tactic(auto, unfolding(crate::specs::Owners::owner_of))]
pub(crate) fn owner_of<'a>(rows: &DumpRows<'a>, object: &Obj) -> Option<&'a Name>
    ensures { option_map (λ n. n.now) result ≡ owner_of rows.now object.now }
{
    match owner_oid(rows, object) {
        Some(oid) => rows.book().role_name(oid),
        None => None,
    }
}

/// A name as a text, if there is one.
pub(crate) fn name_text(alloc: Global, name: Option<&Name>) -> Result<Option<Text>, AllocError>
    ensures { IfOk result (λ text. text ≡ option_map (λ n. n.now) name.entry) }
{
    match name {
        Some(name) => {
            let text = text_of(alloc, name.as_bytes())?;
            Ok(Some(text))
        }
        None => Ok(None),
    }
}

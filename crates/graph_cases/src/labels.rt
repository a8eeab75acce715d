//! What a case calls an object: its kind and its names.
use cat_rows::Catalogue;
use copy_text::Name;
use graph_parts::{Obj, ObjKind};
use std::alloc::AllocError;

fn put_name(name: Option<&Name>, out: &mut Vec<u8>) -> Result<(), AllocError> {
    match name {
        Some(name) => out.extend_from_slice(name.as_bytes()),
        None => out.extend_from_slice(b"?"),
    }
}

fn is_domain(cat: &Catalogue, oid: u32) -> bool {
    cat.pg_type
        .as_slice()
        .iter()
        .any(|row| row.oid == oid && row.typtype.byte() == b'd')
}

// The name of a relation.
fn relation_name(cat: &Catalogue, oid: u32) -> Option<&Name> {
    let row = cat.pg_class.as_slice().iter().find(|row| row.oid == oid)?;
    Some(&row.relname)
}

// The name of the table of a constraint.
fn table_name(cat: &Catalogue, oid: u32) -> Option<&Name> {
    let rows = cat.pg_constraint.as_slice();
    let row = rows.iter().find(|row| row.oid == oid)?;
    relation_name(cat, row.conrelid)
}

// The name of the column of a default.
fn column_name(cat: &Catalogue, oid: u32) -> Option<&Name> {
    let default = cat.pg_attrdef.as_slice().iter().find(|row| row.oid == oid)?;
    let row = cat.pg_attribute.as_slice().iter().find(|row| row.attrelid == default.adrelid
        && row.attnum == default.adnum)?;
    Some(&row.attname)
}

fn kind_name(cat: &Catalogue, object: &Obj) -> &'static str {
    match object.kind {
        ObjKind::Schema => "SCHEMA",
        ObjKind::UserType if is_domain(cat, object.id.oid) => "DOMAIN",
        ObjKind::UserType => "TYPE",
        ObjKind::Table => "TABLE",
        ObjKind::View | ObjKind::Dummy => "VIEW",
        ObjKind::Sequence => "SEQUENCE",
        ObjKind::Default => "DEFAULT",
        ObjKind::PreData => "PRE-DATA",
        ObjKind::TableData => "TABLE DATA",
        ObjKind::SeqValue => "SEQUENCE SET",
        ObjKind::PostData => "POST-DATA",
        ObjKind::Constraint => "CONSTRAINT",
        ObjKind::Index => "INDEX",
        ObjKind::Rule => "RULE",
        ObjKind::Foreign => "FK CONSTRAINT",
    }
}

/// Appends the kind of an object and its names.
pub(crate) fn put_label(
    cat: &Catalogue,
    object: &Obj,
    out: &mut Vec<u8>,
) -> Result<(), AllocError> {
    out.extend_from_slice(kind_name(cat, object).as_bytes())?;
    out.extend_from_slice(b" ")?;
    if matches!(object.kind, ObjKind::Constraint | ObjKind::Foreign) {
        put_name(table_name(cat, object.id.oid), out)?;
        out.extend_from_slice(b" ")?;
    }
    put_name(object.name.as_ref(), out)?;
    match object.kind {
        ObjKind::Default => {
            out.extend_from_slice(b" ")?;
            put_name(column_name(cat, object.id.oid), out)
        }
        ObjKind::Rule => out.extend_from_slice(b" _RETURN"),
        _ => Ok(()),
    }
}

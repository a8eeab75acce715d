//! What makes an object.
ghost use Rattle.std.specs.Prelude.{◌≡◌, IfOk};
ghost use Rattle.dump_stmts.specs.Paths.{path_of, is_public};
ghost use Rattle.dump_stmts.specs.Stmts.{schema_defn, defn_of};

use crate::keys::{constraint_defn, index_defn};
use crate::sequences::{sequence_defn, value_defn};
use crate::tables::{default_defn, table_defn};
use crate::texts::{empty_text, spelled, text_of};
use crate::types::type_defn;
use crate::views::{dummy_defn, rule_defn, view_defn};
use cat_model::{QName, Stmt};
use cat_names::OidIndex;
use copy_text::{Name, Text};
use dump_rows::DumpRows;
use graph_parts::{Obj, ObjKind};
use std::alloc::{AllocError, Global};

/// The path by which an object is found: its own, or that of the relation whose names it carries. A schema has none.
pub fn path_of(object: &Obj) -> Result<Option<QName>, AllocError>
    ensures { IfOk result (λ path. path ≡ path_of object.now) }
{
    match (&object.schema, &object.name) {
        (Some(schema), Some(name)) => {
            let schema = schema.clone()?;
            let name = name.clone()?;
            Ok(Some(QName { schema, name }))
        }
        _ => Ok(None),
    }
}

/// Whether a schema of this name is the one that each database has from the start.
pub(crate) fn is_public(name: &Name) -> bool
    ensures { result ≡ is_public name.now }
{
    name.as_bytes() == b"public".as_slice()
}

// CREATE SCHEMA; for the schema public a comment stands in its place.
fn schema_defn(alloc: Global, object: &Obj) -> Result<Text, AllocError>
    ensures { IfOk result (λ text. text ≡ schema_defn object.now.name) }
{
    let Some(name) = &object.name else {
        return empty_text(alloc);
    };
    if is_public(name) {
        return text_of(
            alloc,
            b"-- *not* creating schema, since initdb creates it\n",
        );
    }
    let name = name.clone()?;
    spelled(alloc, Stmt::CreateSchema { name })
}

/// The statement that makes an object; empty where rows stand in its place. A table has those defaults that don't stand
/// alone, which are all but those of the given oids.
#[tactic(auto, unfolding(crate::specs::Stmts::defn_of))]
pub fn defn_of(
    alloc: Global,
    rows: &DumpRows<'_>,
    standing: &OidIndex,
    object: &Obj,
) -> Result<Text, AllocError>
    ensures { IfOk result (λ text. text ≡ defn_of rows.now standing.now object.now) }
{
    match object.kind {
        ObjKind::Schema => schema_defn(alloc, object),
        ObjKind::UserType => type_defn(alloc, rows, object),
        ObjKind::Table => table_defn(alloc, rows, standing, object),
        ObjKind::View => view_defn(alloc, rows, object),
        ObjKind::Dummy => dummy_defn(alloc, rows, object),
        ObjKind::Sequence => sequence_defn(alloc, rows, object),
        ObjKind::Default => default_defn(alloc, rows, object),
        ObjKind::SeqValue => value_defn(alloc, rows, object),
        ObjKind::Constraint | ObjKind::Foreign => constraint_defn(alloc, rows, object),
        ObjKind::Index => index_defn(alloc, rows, object),
        ObjKind::Rule => rule_defn(alloc, rows, object),
        ObjKind::PreData | ObjKind::TableData | ObjKind::PostData => empty_text(alloc),
    }
}

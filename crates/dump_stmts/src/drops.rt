//! What takes an object away again.
ghost use Rattle.std.specs.Prelude.{◌≡◌, ◌++◌, [], unwrap_or, option_map, IfOk};
ghost use Rattle.dump_rows.specs.Rows.{default_of};
ghost use Rattle.cat_book.specs.Chains.{type_of};
ghost use Rattle.cat_book.specs.Leads.{constraint_of};
ghost use Rattle.dump_stmts.specs.Paths.{path_of};
ghost use Rattle.dump_stmts.specs.Drops.{schema_drop, path_drop, type_drop, part_drop, column_drop, default_drop, constraint_drop, drop_of};

use crate::defn::{is_public, path_of};
use crate::pieces::{put_name, put_path};
use crate::texts::{empty_text, text_of, text_of_vec};
use crate::types::is_domain;
use crate::views::rule_drop;
use cat_model::QName;
use cat_rows::AttributeRow;
use copy_text::{Name, Text};
use dump_rows::DumpRows;
use graph_parts::{Obj, ObjKind};
use std::alloc::{AllocError, Global};

// DROP SCHEMA; for the schema public a comment stands in its place.
fn schema_drop(alloc: Global, object: &Obj) -> Result<Text, AllocError>
    ensures { IfOk result (λ text. text ≡ schema_drop object.now.name) }
{
    let Some(name) = &object.name else {
        return empty_text(alloc);
    };
    if is_public(name) {
        return text_of(
            alloc,
            b"-- *not* dropping schema, since initdb creates it\n",
        );
    }
    let mut bytes = Vec::new(alloc);
    put_name(b"DROP SCHEMA ", name, &mut bytes)?;
    bytes.extend_from_slice(b";\n")?;
    text_of_vec(bytes)
}

// Words and the path of an object.
fn path_drop(alloc: Global, words: &[u8], object: &Obj) -> Result<Text, AllocError>
    ensures { IfOk result (λ text. text ≡ path_drop words.now (path_of object.now)) }
{
    let Some(q) = path_of(object)? else {
        return empty_text(alloc);
    };
    let mut bytes = Vec::new(alloc);
    put_path(words, &q, &mut bytes)?;
    bytes.extend_from_slice(b";\n")?;
    text_of_vec(bytes)
}

// DROP TYPE, or DROP DOMAIN.
fn type_drop(alloc: Global, rows: &DumpRows<'_>, object: &Obj) -> Result<Text, AllocError>
    ensures { IfOk result (λ text. text ≡ type_drop (type_of rows.now.pg_type object.now.id.oid) (path_of object.now)) }
{
    match rows.book().type_of(object.id.oid) {
        Some(row) if is_domain(row) => path_drop(alloc, b"DROP DOMAIN ", object),
        Some(_) => path_drop(alloc, b"DROP TYPE ", object),
        None => empty_text(alloc),
    }
}

// ALTER TABLE .. with words on both sides of a name.
fn table_part_drop(
    alloc: Global,
    table: &[u8],
    q: &QName,
    words: &[u8],
    name: &Name,
    end: &[u8],
) -> Result<Text, AllocError>
    ensures { IfOk result (λ text. text ≡ part_drop table.now q.now words.now name.now end.now) }
{
    let mut bytes = Vec::new(alloc);
    put_path(table, q, &mut bytes)?;
    put_name(words, name, &mut bytes)?;
    bytes.extend_from_slice(end)?;
    text_of_vec(bytes)
}

// DROP DEFAULT of this column.
fn column_drop(alloc: Global, object: &Obj, column: &AttributeRow) -> Result<Text, AllocError>
    ensures { IfOk result (λ text. text ≡ column_drop (path_of object.now) column.now) }
{
    match path_of(object)? {
        Some(q) => table_part_drop(
            alloc,
            b"ALTER TABLE ",
            &q,
            b" ALTER COLUMN ",
            &column.attname,
            b" DROP DEFAULT;\n",
        ),
        None => empty_text(alloc),
    }
}

// DROP DEFAULT.
fn default_drop(alloc: Global, rows: &DumpRows<'_>, object: &Obj) -> Result<Text, AllocError>
    ensures { IfOk result (λ text. text ≡ unwrap_or (option_map (default_drop rows.now (path_of object.now)) (default_of rows.now object.now.id.oid)) []) }
{
    let Some(row) = rows.default_of(object.id.oid) else {
        return empty_text(alloc);
    };
    match rows.column_at(row.adrelid, row.adnum) {
        Some(column) => column_drop(alloc, object, column),
        None => empty_text(alloc),
    }
}

// DROP CONSTRAINT.
fn constraint_drop(alloc: Global, rows: &DumpRows<'_>, object: &Obj) -> Result<Text, AllocError>
    ensures { IfOk result (λ text. text ≡ unwrap_or (option_map (constraint_drop rows.now) (constraint_of rows.now object.now.id.oid)) []) }
{
    let Some(row) = rows.book().constraint_of(object.id.oid) else {
        return empty_text(alloc);
    };
    match rows.book().class_path_of(row.conrelid)? {
        Some(q) => table_part_drop(
            alloc,
            b"ALTER TABLE ONLY ",
            &q,
            b" DROP CONSTRAINT ",
            &row.conname,
            b";\n",
        ),
        None => empty_text(alloc),
    }
}

/// The statement that takes an object away again; empty where nothing does by itself.
#[tactic(auto, unfolding(crate::specs::Drops::drop_of))]
pub fn drop_of(alloc: Global, rows: &DumpRows<'_>, object: &Obj) -> Result<Text, AllocError>
    ensures { IfOk result (λ text. text ≡ drop_of rows.now object.now) }
{
    match object.kind {
        ObjKind::Schema => schema_drop(alloc, object),
        ObjKind::UserType => type_drop(alloc, rows, object),
        ObjKind::Table => path_drop(alloc, b"DROP TABLE ", object),
        ObjKind::View | ObjKind::Dummy => path_drop(alloc, b"DROP VIEW ", object),
        ObjKind::Sequence => path_drop(alloc, b"DROP SEQUENCE ", object),
        ObjKind::Default => default_drop(alloc, rows, object),
        ObjKind::Constraint | ObjKind::Foreign => constraint_drop(alloc, rows, object),
        ObjKind::Index => path_drop(alloc, b"DROP INDEX ", object),
        ObjKind::Rule => rule_drop(alloc, rows, object),
        ObjKind::PreData | ObjKind::TableData | ObjKind::SeqValue | ObjKind::PostData => {
            empty_text(alloc)
        }
    }
}

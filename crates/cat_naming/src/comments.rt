//! What the rows of pg_description give.
ghost use Rattle.std.specs.Prelude.{◌≡◌, ◌++◌, option_map, IfOk, OnOk};
ghost use Rattle.std.specs.List.{flat_map};
ghost use Rattle.std.specs.Option.{option_and_then};
ghost use Rattle.cat_model.specs.declared.object.Object.TheVariants as object;
ghost use Rattle.cat_book.specs.Paths.{path_of};
ghost use Rattle.cat_book.specs.Paths.{schema_of, class_path_of};
ghost use Rattle.cat_lookups.specs.Found.{constraint_of};
ghost use Rattle.cat_naming.specs.Comments.{constraint_object, relation_object, commented_object, comment_entries};

use cat_lookups::Lookups;
use cat_model::{Key, Object, QName, Value};
use cat_rows::{ConstraintRow, DescriptionRow};
use eng_map::{Entries, push_entry};
use std::alloc::AllocError;

/// The oids of the system tables whose rows have comments.
const PG_NAMESPACE: u32 = 2615;

const PG_TYPE: u32 = 1247;

const PG_CLASS: u32 = 1259;

const PG_CONSTRAINT: u32 = 2606;

// A schema.
fn schema_object(lookups: &Lookups<'_>, oid: u32) -> Result<Option<Object>, AllocError>
    ensures { IfOk result (λ on. on ≡ option_map (λ s. object.Schema s.nspname) (schema_of lookups.now.pg_namespace oid)) }
{
    match lookups.book().schema_of(oid) {
        Some(schema) => Ok(Some(Object::Schema(schema.nspname.clone()?))),
        None => Ok(None),
    }
}

// A type.
fn type_object(lookups: &Lookups<'_>, oid: u32) -> Result<Option<Object>, AllocError>
    ensures { IfOk result (λ on. on ≡ option_map object.Type (path_of lookups.now oid)) }
{
    match lookups.book().path_of(oid)? {
        Some(path) => Ok(Some(Object::Type(path))),
        None => Ok(None),
    }
}

// A relation, or its column.
fn relation_object(
    lookups: &Lookups<'_>,
    row: &DescriptionRow,
    path: QName,
) -> Result<Option<Object>, AllocError>
    ensures { IfOk result (λ on. on ≡ relation_object lookups.now row.now path) }
{
    if row.objsubid == 0 {
        return Ok(Some(Object::Relation(path)));
    }
    match lookups.column_name(row.objoid, row.objsubid) {
        Some(column) => Ok(Some(Object::Column(path, column.clone()?))),
        None => Ok(None),
    }
}

// The same by its oid.
fn class_object(lookups: &Lookups<'_>, row: &DescriptionRow) -> Result<Option<Object>, AllocError>
    ensures { IfOk result (λ on. on ≡ option_and_then (relation_object lookups.now row.now) (class_path_of lookups.now row.now.objoid)) }
{
    match lookups.book().class_path_of(row.objoid)? {
        Some(path) => relation_object(lookups, row, path),
        None => Ok(None),
    }
}

// A constraint of a table.
fn constraint_object(
    lookups: &Lookups<'_>,
    row: &ConstraintRow,
) -> Result<Option<Object>, AllocError>
    ensures { IfOk result (λ on. on ≡ constraint_object lookups.now row.now) }
{
    match lookups.book().class_path_of(row.conrelid)? {
        Some(table) => Ok(Some(Object::Constraint(table, row.conname.clone()?))),
        None => Ok(None),
    }
}

// The same by its oid.
fn constraint_by_oid(lookups: &Lookups<'_>, oid: u32) -> Result<Option<Object>, AllocError>
    ensures { IfOk result (λ on. on ≡ option_and_then (constraint_object lookups.now) (constraint_of lookups.now oid)) }
{
    match lookups.constraint_of(oid) {
        Some(row) => constraint_object(lookups, row),
        None => Ok(None),
    }
}

// What a comment is on.
fn commented_object(
    lookups: &Lookups<'_>,
    row: &DescriptionRow,
) -> Result<Option<Object>, AllocError>
    ensures { IfOk result (λ on. on ≡ commented_object lookups.now row.now) }
{
    match row.classoid {
        PG_NAMESPACE => schema_object(lookups, row.objoid),
        PG_TYPE => type_object(lookups, row.objoid),
        PG_CLASS => class_object(lookups, row),
        PG_CONSTRAINT => constraint_by_oid(lookups, row.objoid),
        _ => Ok(None),
    }
}

// Adds a comment.
fn push_comment(
    entries: &mut Entries,
    lookups: &Lookups<'_>,
    row: &DescriptionRow,
) -> Result<(), AllocError>
    ensures { OnOk result (entries.new.items ≡ entries.old.items ++ comment_entries lookups.now row.now) }
{
    let text = row.description.clone()?;
    match commented_object(lookups, row)? {
        Some(object) => push_entry(entries, Key::Comment(object), Value::Comment(text)),
        None => Ok(()),
    }
}

/// Adds what the comments give.
pub(crate) fn add_comments(
    entries: &mut Entries,
    lookups: &Lookups<'_>,
    rows: &[DescriptionRow],
) -> Result<(), AllocError>
    ensures { OnOk result (entries.new.items ≡ entries.old.items ++ flat_map (comment_entries lookups.now) rows.now) }
{
    for row in rows {
        push_comment(entries, lookups, row)?;
    }
    Ok(())
}

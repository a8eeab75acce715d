//! The oids of the rows of types, labels and relations.
ghost use Rattle.std.specs.Prelude.{◌≡◌, ◌+◌, ◌<◌, ◌^◌, pos, Some, OnOk, IfOk};
ghost use Rattle.cat_rows.specs.declared.relations.ClassRow.{ClassRow as TheClassRow};
ghost use Rattle.cat_rows.specs.declared.types.EnumRow.{EnumRow as TheEnumRow};
ghost use Rattle.cat_rows.specs.declared.types.TypeRow.{TypeRow as TheTypeRow};
ghost use Rattle.opening_ids.specs.Opening.{place_slot, of_type, of_label, of_relation, given, all_given, objects_given};

use crate::giving::give;
use cat_book::Book;
use cat_model::{Key, QName};
use cat_rows::{ClassRow, EnumRow, TypeRow};
use object_ids::{Ids, Slot, label_slot, object_slot};
use std::alloc::AllocError;

// The type of a row.
fn type_slot(book: &Book<'_>, row: &TypeRow) -> Result<Option<Slot>, AllocError>
    ensures { IfOk result (λ slot. slot ≡ of_type book.now row.now) }
{
    match book.type_path(row)? {
        Some(path) => Ok(Some(object_slot(Key::UserType(path)))),
        None => Ok(None),
    }
}

// The label at a place, counted from 1.
fn place_slot(path: &QName, place: i64) -> Result<Option<Slot>, AllocError>
    ensures { IfOk result (λ slot. slot ≡ place_slot path.now place) }
{
    if place < 1 {
        return Ok(None);
    }
    let before = place as usize - 1;
    Ok(Some(label_slot(path, before)?))
}

// The label of a row.
fn row_label(book: &Book<'_>, row: &EnumRow) -> Result<Option<Slot>, AllocError>
    ensures { IfOk result (λ slot. slot ≡ of_label book.now row.now) }
{
    match book.path_of(row.enumtypid)? {
        Some(path) => place_slot(&path, row.enumpos),
        None => Ok(None),
    }
}

// The relation of a row.
fn relation_slot(book: &Book<'_>, row: &ClassRow) -> Result<Option<Slot>, AllocError>
    ensures { IfOk result (λ slot. slot ≡ of_relation book.now row.now) }
{
    match book.class_path(row)? {
        Some(path) => Ok(Some(object_slot(Key::Rel(path)))),
        None => Ok(None),
    }
}

// Gives the oid of the row of a type.
fn give_type(book: &Book<'_>, ids: &mut Ids, row: &TypeRow) -> Result<(), AllocError>
    ensures { OnOk result (ids.new ≡ given ids.old row.now.oid (of_type book.now row.now)) }
{
    give(ids, row.oid, type_slot(book, row)?)
}

fn give_types(book: &Book<'_>, ids: &mut Ids, rows: &[TypeRow]) -> Result<(), AllocError>
    ensures { OnOk result (ids.new ≡ all_given (λ (r : TheTypeRow). r.oid) (of_type book.now) ids.old rows.now) }
{
    for row in rows {
        give_type(book, ids, row)?;
    }
    Ok(())
}

// Gives the oid of the row of a label.
fn give_label(book: &Book<'_>, ids: &mut Ids, row: &EnumRow) -> Result<(), AllocError>
    ensures { OnOk result (ids.new ≡ given ids.old row.now.oid (of_label book.now row.now)) }
{
    give(ids, row.oid, row_label(book, row)?)
}

fn give_labels(book: &Book<'_>, ids: &mut Ids, rows: &[EnumRow]) -> Result<(), AllocError>
    ensures { OnOk result (ids.new ≡ all_given (λ (r : TheEnumRow). r.oid) (of_label book.now) ids.old rows.now) }
{
    for row in rows {
        give_label(book, ids, row)?;
    }
    Ok(())
}

// Gives the oid of the row of a relation.
fn give_relation(book: &Book<'_>, ids: &mut Ids, row: &ClassRow) -> Result<(), AllocError>
    ensures { OnOk result (ids.new ≡ given ids.old row.now.oid (of_relation book.now row.now)) }
{
    give(ids, row.oid, relation_slot(book, row)?)
}

fn give_relations(book: &Book<'_>, ids: &mut Ids, rows: &[ClassRow]) -> Result<(), AllocError>
    ensures { OnOk result (ids.new ≡ all_given (λ (r : TheClassRow). r.oid) (of_relation book.now) ids.old rows.now) }
{
    for row in rows {
        give_relation(book, ids, row)?;
    }
    Ok(())
}

/// Gives the oids of types, labels and relations.
pub(crate) fn give_objects(book: &Book<'_>, ids: &mut Ids) -> Result<(), AllocError>
    ensures { OnOk result (ids.new ≡ objects_given book.now ids.old) }
{
    let cat = book.tables();
    give_types(book, ids, cat.pg_type.as_slice())?;
    give_labels(book, ids, cat.pg_enum.as_slice())?;
    give_relations(book, ids, cat.pg_class.as_slice())
}

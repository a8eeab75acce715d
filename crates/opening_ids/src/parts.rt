//! The oids of the rows of defaults, constraints and bodies of views.
ghost use Rattle.std.specs.Prelude.{◌≡◌, Some, OnOk, IfOk};
ghost use Rattle.std.specs.Option.{option_map};
ghost use Rattle.cat_book.specs.Paths.{class_path_of, path_of};
ghost use Rattle.cat_rows.specs.declared.constraints.ConstraintRow.{ConstraintRow as TheConstraintRow};
ghost use Rattle.cat_rows.specs.declared.relations.AttrdefRow.{AttrdefRow as TheAttrdefRow};
ghost use Rattle.cat_rows.specs.declared.relations.RewriteRow.{RewriteRow as TheRewriteRow};
ghost use Rattle.object_ids.specs.Slots.{object, check};
ghost use Rattle.cat_model.specs.declared.key.Key.TheVariants as key;
ghost use Rattle.opening_ids.specs.Opening.{of_default, of_constraint, of_body, given, all_given, parts_given};

use crate::giving::give;
use cat_book::Book;
use cat_lookups::Lookups;
use cat_model::{Key, QName};
use cat_rows::{AttrdefRow, ConstraintRow, RewriteRow};
use copy_text::Name;
use object_ids::{Ids, Slot, check_slot, object_slot};
use std::alloc::AllocError;

// The default of a column.
fn default_slot(path: QName, column: &Name) -> Result<Slot, AllocError>
    ensures { IfOk result (λ slot. slot ≡ object (key.Default path column.now)) }
{
    let column = column.clone()?;
    Ok(object_slot(Key::Default(path, column)))
}

// The default of a row.
fn row_default(lookups: &Lookups<'_>, row: &AttrdefRow) -> Result<Option<Slot>, AllocError>
    ensures { IfOk result (λ slot. slot ≡ of_default lookups.now row.now) }
{
    let path = lookups.book().class_path_of(row.adrelid)?;
    match (path, lookups.column_name(row.adrelid, row.adnum)) {
        (Some(path), Some(column)) => Ok(Some(default_slot(path, column)?)),
        _ => Ok(None),
    }
}

// The check of a domain.
fn domain_check(book: &Book<'_>, row: &ConstraintRow) -> Result<Option<Slot>, AllocError>
    ensures { IfOk result (λ slot. slot ≡ option_map (λ q. check q row.now.conname) (path_of book.now row.now.contypid)) }
{
    match book.path_of(row.contypid)? {
        Some(path) => Ok(Some(check_slot(&path, &row.conname)?)),
        None => Ok(None),
    }
}

// The constraint of a table.
fn table_constraint(book: &Book<'_>, row: &ConstraintRow) -> Result<Option<Slot>, AllocError>
    ensures { IfOk result (λ slot. slot ≡ option_map (λ q. object (key.Con q row.now.conname)) (class_path_of book.now row.now.conrelid)) }
{
    match book.class_path_of(row.conrelid)? {
        Some(path) => {
            let name = row.conname.clone()?;
            Ok(Some(object_slot(Key::Con(path, name))))
        }
        None => Ok(None),
    }
}

// The constraint of a row.
fn row_constraint(book: &Book<'_>, row: &ConstraintRow) -> Result<Option<Slot>, AllocError>
    ensures { IfOk result (λ slot. slot ≡ of_constraint book.now row.now) }
{
    if row.conrelid == 0 {
        domain_check(book, row)
    } else {
        table_constraint(book, row)
    }
}

// The body of a row.
fn row_body(book: &Book<'_>, row: &RewriteRow) -> Result<Option<Slot>, AllocError>
    ensures { IfOk result (λ slot. slot ≡ of_body book.now row.now) }
{
    match book.class_path_of(row.ev_class)? {
        Some(path) => Ok(Some(object_slot(Key::Body(path)))),
        None => Ok(None),
    }
}

// Gives the oid of the row of a default.
fn give_default(lookups: &Lookups<'_>, ids: &mut Ids, row: &AttrdefRow) -> Result<(), AllocError>
    ensures { OnOk result (ids.new ≡ given ids.old row.now.oid (of_default lookups.now row.now)) }
{
    give(ids, row.oid, row_default(lookups, row)?)
}

fn give_defaults(
    lookups: &Lookups<'_>,
    ids: &mut Ids,
    rows: &[AttrdefRow],
) -> Result<(), AllocError>
    ensures { OnOk result (ids.new ≡ all_given (λ (r : TheAttrdefRow). r.oid) (of_default lookups.now) ids.old rows.now) }
{
    for row in rows {
        give_default(lookups, ids, row)?;
    }
    Ok(())
}

// Gives the oid of the row of a constraint.
fn give_constraint(book: &Book<'_>, ids: &mut Ids, row: &ConstraintRow) -> Result<(), AllocError>
    ensures { OnOk result (ids.new ≡ given ids.old row.now.oid (of_constraint book.now row.now)) }
{
    give(ids, row.oid, row_constraint(book, row)?)
}

fn give_constraints(
    book: &Book<'_>,
    ids: &mut Ids,
    rows: &[ConstraintRow],
) -> Result<(), AllocError>
    ensures { OnOk result (ids.new ≡ all_given (λ (r : TheConstraintRow). r.oid) (of_constraint book.now) ids.old rows.now) }
{
    for row in rows {
        give_constraint(book, ids, row)?;
    }
    Ok(())
}

// Gives the oid of the row of the body of a view.
fn give_body(book: &Book<'_>, ids: &mut Ids, row: &RewriteRow) -> Result<(), AllocError>
    ensures { OnOk result (ids.new ≡ given ids.old row.now.oid (of_body book.now row.now)) }
{
    give(ids, row.oid, row_body(book, row)?)
}

fn give_bodies(book: &Book<'_>, ids: &mut Ids, rows: &[RewriteRow]) -> Result<(), AllocError>
    ensures { OnOk result (ids.new ≡ all_given (λ (r : TheRewriteRow). r.oid) (of_body book.now) ids.old rows.now) }
{
    for row in rows {
        give_body(book, ids, row)?;
    }
    Ok(())
}

/// Gives the oids of defaults, constraints and bodies of views.
pub(crate) fn give_parts(lookups: &Lookups<'_>, ids: &mut Ids) -> Result<(), AllocError>
    ensures { OnOk result (ids.new ≡ parts_given lookups.now ids.old) }
{
    let cat = lookups.tables();
    let book = lookups.book();
    give_defaults(lookups, ids, cat.pg_attrdef.as_slice())?;
    give_constraints(book, ids, cat.pg_constraint.as_slice())?;
    give_bodies(book, ids, cat.pg_rewrite.as_slice())
}

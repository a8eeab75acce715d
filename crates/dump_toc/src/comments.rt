//! Comments on objects.
ghost use Rattle.std.specs.Prelude.{◌≡◌, [], ◌∷◌, ◌++◌, Some, map, filter_map, option_map, IfOk, OnOk};
ghost use Rattle.std.specs.List.{flat_map};
ghost use Rattle.std.specs.Option.{option_and_then, option_to_list};
ghost use Rattle.cat_model.specs.declared.grant.Commented.TheVariants as commented;
ghost use Rattle.cat_book.specs.Chains.{type_of};
ghost use Rattle.dump_rows.specs.Rows.{table_checks};
ghost use Rattle.cat_book.specs.Leads.{constraint_of};
ghost use Rattle.dump_stmts.specs.Paths.{path_of, written};
ghost use Rattle.cat_model.specs.declared.stmt.Stmt.TheVariants as stmts;
ghost use Rattle.dump_toc.specs.Comments.{type_as, table_as, column_as, constraint_as, index_as, commented_as, remark, own_remark, check_remark, index_remark, own_remarks, check_remarks, index_remarks, key_remarks, part_remarks, remarks_of, remark_draft};

use crate::draft::{Draft, beside, only};
use crate::tags::comment_tag;
use cat_model::{Commented, QName, Stmt};
use cat_rows::{ConstraintRow, DescriptionRow};
use copy_text::Text;
use dump_rows::DumpRows;
use dump_stmts::{is_domain, path_of, spelled};
use graph_parts::{Obj, ObjKind};
use std::alloc::{AllocError, Global};

/// The section of what is restored with what it belongs to.
const NONE: u8 = 1;

/// The system table of constraints.
const PG_CONSTRAINT: u32 = 2606;

/// The system table of relations.
const PG_CLASS: u32 = 1259;

// COMMENT ON.
fn comment_defn(alloc: Global, what: Commented, text: &Text) -> Result<Text, AllocError>
    ensures { IfOk result (λ defn. defn ≡ written (Some (stmts.Comment what (Some text.now)))) }
{
    let text = text.clone()?;
    spelled(
        alloc,
        Stmt::Comment {
            object: what,
            text: Some(text),
        },
    )
}

// The draft of a comment on what stands with the object at a place.
fn remark_draft(
    alloc: Global,
    rows: &DumpRows<'_>,
    object: &Obj,
    place: u32,
    what: Commented,
    text: &Text,
) -> Result<Draft, AllocError>
    ensures { IfOk result (λ draft. draft ≡ remark_draft rows.now object.now place (what, text.now)) }
{
    let tag = comment_tag(alloc, &what)?;
    let defn = comment_defn(alloc, what, text)?;
    let needs = only(alloc, place)?;
    beside(alloc, rows, object, b"COMMENT", NONE, tag, defn, needs)
}

// Adds the draft of a comment, where it is on something.
fn add_remark(
    alloc: Global,
    rows: &DumpRows<'_>,
    object: &Obj,
    place: u32,
    what: Option<Commented>,
    text: &Text,
    drafts: &mut Vec<Draft>,
) -> Result<(), AllocError>
    ensures { OnOk result (drafts.new.items ≡ drafts.old.items ++ map (remark_draft rows.now object.now place) (option_to_list (option_map (remark text.now) what))) }
{
    if let Some(what) = what {
        let draft = remark_draft(alloc, rows, object, place, what, text)?;
        drafts.push(draft)?;
    }
    Ok(())
}

// ---- what a comment is on

// A schema.
fn schema_as(object: &Obj) -> Result<Option<Commented>, AllocError>
    ensures { IfOk result (λ what. what ≡ option_map commented.Schema object.now.name) }
{
    match &object.name {
        Some(name) => Ok(Some(Commented::Schema(name.clone()?))),
        None => Ok(None),
    }
}

// An enum or a domain.
fn type_as(rows: &DumpRows<'_>, object: &Obj) -> Result<Option<Commented>, AllocError>
    ensures { IfOk result (λ what. what ≡ option_and_then (λ q. option_map (λ t. type_as t q) (type_of rows.now.pg_type object.now.id.oid)) (path_of object.now)) }
{
    let Some(q) = path_of(object)? else {
        return Ok(None);
    };
    match rows.book().type_of(object.id.oid) {
        Some(row) => {
            if is_domain(row) {
                Ok(Some(Commented::Domain(q)))
            } else {
                Ok(Some(Commented::Type(q)))
            }
        }
        None => Ok(None),
    }
}

// A column of a table.
fn column_as(
    rows: &DumpRows<'_>,
    q: QName,
    row: &DescriptionRow,
) -> Result<Option<Commented>, AllocError>
    ensures { IfOk result (λ what. what ≡ column_as rows.now row.now q) }
{
    match rows.column_at(row.objoid, row.objsubid) {
        Some(column) => {
            let name = column.attname.clone()?;
            Ok(Some(Commented::Column(q, name)))
        }
        None => Ok(None),
    }
}

// A table or its column.
fn table_as(
    rows: &DumpRows<'_>,
    object: &Obj,
    row: &DescriptionRow,
) -> Result<Option<Commented>, AllocError>
    ensures { IfOk result (λ what. what ≡ option_and_then (table_as rows.now row.now) (path_of object.now)) }
{
    let Some(q) = path_of(object)? else {
        return Ok(None);
    };
    if row.objsubid == 0 {
        Ok(Some(Commented::Table(q)))
    } else {
        column_as(rows, q, row)
    }
}

// A constraint of a table.
fn constraint_as(rows: &DumpRows<'_>, row: &ConstraintRow) -> Result<Option<Commented>, AllocError>
    ensures { IfOk result (λ what. what ≡ constraint_as rows.now row.now) }
{
    match rows.book().class_path_of(row.conrelid)? {
        Some(q) => {
            let name = row.conname.clone()?;
            Ok(Some(Commented::Constraint(q, name)))
        }
        None => Ok(None),
    }
}

// The same by its oid.
fn key_as(rows: &DumpRows<'_>, oid: u32) -> Result<Option<Commented>, AllocError>
    ensures { IfOk result (λ what. what ≡ option_and_then (constraint_as rows.now) (constraint_of rows.now oid)) }
{
    match rows.book().constraint_of(oid) {
        Some(row) => constraint_as(rows, row),
        None => Ok(None),
    }
}

// An index.
fn index_as(rows: &DumpRows<'_>, index: u32) -> Result<Option<Commented>, AllocError>
    ensures { IfOk result (λ what. what ≡ index_as rows.now index) }
{
    Ok(rows.book().class_path_of(index)?.map(Commented::Index))
}

// What a comment on an object is on.
fn commented_as(
    rows: &DumpRows<'_>,
    object: &Obj,
    row: &DescriptionRow,
) -> Result<Option<Commented>, AllocError>
    ensures { IfOk result (λ what. what ≡ commented_as rows.now object.now row.now object.now.kind) }
{
    match object.kind {
        ObjKind::Schema => schema_as(object),
        ObjKind::UserType => type_as(rows, object),
        ObjKind::Table => table_as(rows, object, row),
        ObjKind::View | ObjKind::Dummy => Ok(path_of(object)?.map(Commented::View)),
        ObjKind::Sequence => Ok(path_of(object)?.map(Commented::Sequence)),
        ObjKind::Index => Ok(path_of(object)?.map(Commented::Index)),
        ObjKind::Constraint | ObjKind::Foreign => key_as(rows, object.id.oid),
        ObjKind::Default
        | ObjKind::PreData
        | ObjKind::TableData
        | ObjKind::SeqValue
        | ObjKind::PostData
        | ObjKind::Rule => Ok(None),
    }
}

// ---- the comments

// Adds the comments of these rows on an object.
fn add_own(
    alloc: Global,
    rows: &DumpRows<'_>,
    object: &Obj,
    place: u32,
    found: &[&DescriptionRow],
    drafts: &mut Vec<Draft>,
) -> Result<(), AllocError>
    ensures { OnOk result (drafts.new.items ≡ drafts.old.items ++ map (remark_draft rows.now object.now place) (filter_map (own_remark rows.now object.now) (map (λ r. r.now) found.now))) }
{
    for row in found {
        let what = commented_as(rows, object, *row)?;
        add_remark(alloc, rows, object, place, what, &row.description, drafts)?;
    }
    Ok(())
}

// Adds the comments of these rows on a check.
fn add_on_check(
    alloc: Global,
    rows: &DumpRows<'_>,
    object: &Obj,
    place: u32,
    check: &ConstraintRow,
    found: &[&DescriptionRow],
    drafts: &mut Vec<Draft>,
) -> Result<(), AllocError>
    ensures { OnOk result (drafts.new.items ≡ drafts.old.items ++ map (remark_draft rows.now object.now place) (filter_map (check_remark rows.now check.now) (map (λ r. r.now) found.now))) }
{
    for row in found {
        let what = constraint_as(rows, check)?;
        add_remark(alloc, rows, object, place, what, &row.description, drafts)?;
    }
    Ok(())
}

// Adds the comments on a check.
fn add_check(
    alloc: Global,
    rows: &DumpRows<'_>,
    object: &Obj,
    place: u32,
    check: &ConstraintRow,
    drafts: &mut Vec<Draft>,
) -> Result<(), AllocError>
    ensures { OnOk result (drafts.new.items ≡ drafts.old.items ++ map (remark_draft rows.now object.now place) (check_remarks rows.now check.now)) }
{
    let found = rows.comments_on(alloc, PG_CONSTRAINT, check.oid)?;
    add_on_check(alloc, rows, object, place, check, &found, drafts)?;
    Ok(())
}

// Adds the comments on these checks.
fn add_checks(
    alloc: Global,
    rows: &DumpRows<'_>,
    object: &Obj,
    place: u32,
    checks: &[&ConstraintRow],
    drafts: &mut Vec<Draft>,
) -> Result<(), AllocError>
    ensures { OnOk result (drafts.new.items ≡ drafts.old.items ++ map (remark_draft rows.now object.now place) (flat_map (check_remarks rows.now) (map (λ r. r.now) checks.now))) }
{
    for check in checks {
        add_check(alloc, rows, object, place, *check, drafts)?;
    }
    Ok(())
}

// Adds the comments on the checks of a table.
fn add_on_checks(
    alloc: Global,
    rows: &DumpRows<'_>,
    object: &Obj,
    place: u32,
    drafts: &mut Vec<Draft>,
) -> Result<(), AllocError>
    ensures { OnOk result (drafts.new.items ≡ drafts.old.items ++ map (remark_draft rows.now object.now place) (flat_map (check_remarks rows.now) (table_checks rows.now object.now.id.oid))) }
{
    let checks = rows.table_checks(alloc, object.id.oid)?;
    add_checks(alloc, rows, object, place, &checks, drafts)?;
    Ok(())
}

// Adds the comments of these rows on an index.
fn add_on_index(
    alloc: Global,
    rows: &DumpRows<'_>,
    object: &Obj,
    place: u32,
    index: u32,
    found: &[&DescriptionRow],
    drafts: &mut Vec<Draft>,
) -> Result<(), AllocError>
    ensures { OnOk result (drafts.new.items ≡ drafts.old.items ++ map (remark_draft rows.now object.now place) (filter_map (index_remark rows.now index) (map (λ r. r.now) found.now))) }
{
    for row in found {
        let what = index_as(rows, index)?;
        add_remark(alloc, rows, object, place, what, &row.description, drafts)?;
    }
    Ok(())
}

// Adds the comments on an index.
fn add_index(
    alloc: Global,
    rows: &DumpRows<'_>,
    object: &Obj,
    place: u32,
    index: u32,
    drafts: &mut Vec<Draft>,
) -> Result<(), AllocError>
    ensures { OnOk result (drafts.new.items ≡ drafts.old.items ++ map (remark_draft rows.now object.now place) (index_remarks rows.now index)) }
{
    let found = rows.comments_on(alloc, PG_CLASS, index)?;
    add_on_index(alloc, rows, object, place, index, &found, drafts)?;
    Ok(())
}

// Adds the comments on the index of a key.
fn add_key(
    alloc: Global,
    rows: &DumpRows<'_>,
    object: &Obj,
    place: u32,
    drafts: &mut Vec<Draft>,
) -> Result<(), AllocError>
    ensures { OnOk result (drafts.new.items ≡ drafts.old.items ++ map (remark_draft rows.now object.now place) (key_remarks rows.now (constraint_of rows.now object.now.id.oid))) }
{
    match rows.book().constraint_of(object.id.oid) {
        Some(row) => add_index(alloc, rows, object, place, row.conindid, drafts),
        None => Ok(()),
    }
}

// Adds the comments on what belongs to an object and is none itself: the checks of a table, the index of a key.
fn add_parts(
    alloc: Global,
    rows: &DumpRows<'_>,
    object: &Obj,
    place: u32,
    drafts: &mut Vec<Draft>,
) -> Result<(), AllocError>
    ensures { OnOk result (drafts.new.items ≡ drafts.old.items ++ map (remark_draft rows.now object.now place) (part_remarks rows.now object.now object.now.kind)) }
{
    match object.kind {
        ObjKind::Table => add_on_checks(alloc, rows, object, place, drafts),
        ObjKind::Constraint => add_key(alloc, rows, object, place, drafts),
        _ => Ok(()),
    }
}

// Adds the comments on an object itself.
fn add_on_object(
    alloc: Global,
    rows: &DumpRows<'_>,
    object: &Obj,
    place: u32,
    drafts: &mut Vec<Draft>,
) -> Result<(), AllocError>
    ensures { OnOk result (drafts.new.items ≡ drafts.old.items ++ map (remark_draft rows.now object.now place) (own_remarks rows.now object.now)) }
{
    let found = rows.comments_on(alloc, object.id.class, object.id.oid)?;
    add_own(alloc, rows, object, place, &found, drafts)?;
    Ok(())
}

/// Adds the drafts of the comments on an object at a place, and on what belongs to it.
#[tactic(auto, unfolding(crate::specs::Comments::remarks_of))]
pub(crate) fn add_comments(
    alloc: Global,
    rows: &DumpRows<'_>,
    object: &Obj,
    place: u32,
    drafts: &mut Vec<Draft>,
) -> Result<(), AllocError>
    ensures { OnOk result (drafts.new.items ≡ drafts.old.items ++ map (remark_draft rows.now object.now place) (remarks_of rows.now object.now)) }
{
    add_on_object(alloc, rows, object, place, drafts)?;
    add_parts(alloc, rows, object, place, drafts)
}

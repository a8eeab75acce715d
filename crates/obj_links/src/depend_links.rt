//! What rows of pg_depend add.
ghost use Rattle.std.specs.Prelude.{◌≡◌, ◌++◌, Some, option_map, IfOk, OnOk};
ghost use Rattle.std.specs.Option.{option_and_then};
ghost use Rattle.obj_graph.specs.ConstraintLinks.{check_owner};
ghost use Rattle.obj_graph.specs.DependLinks.{constraint_end, named_end, view_moves, named_moves, between, depend_links};
ghost use Rattle.obj_graph.specs.Objects.{default_object, rule_object};

use crate::links::Linked;
use crate::object_list::{default_object, rule_object};
use crate::relation_links::is_kept;
use cat_book::Book;
use cat_rows::{AttrdefRow, ConstraintRow, DependRow, RewriteRow};
use graph_parts::{Obj, ObjId};
use obj_beside::Beside;
use obj_graph::{Link, constraint_id, relation_id, schema_id, type_id};
use std::alloc::{AllocError, Global};

/// The table or the domain that a check is part of.
pub(crate) fn check_owner(row: &ConstraintRow) -> ObjId
    ensures { result ≡ check_owner row.now }
{
    if row.contypid == 0 {
        relation_id(row.conrelid)
    } else {
        type_id(row.contypid)
    }
}

// What stands for a constraint.
fn constraint_end(row: &ConstraintRow) -> ObjId
    ensures { result ≡ constraint_end row.now }
{
    if row.contype.byte() == b'c' {
        check_owner(row)
    } else {
        constraint_id(row.oid)
    }
}

// What stands for an object of this class and oid.
fn named_end(beside: &Beside<'_>, class: u32, oid: u32) -> Option<ObjId>
    ensures { result ≡ named_end beside.now class oid }
{
    match class {
        2615 => Some(schema_id(oid)),
        1247 => Some(type_id(oid)),
        1259 => Some(beside.relation_end(oid)),
        2604 => beside.default_of(oid).map(|row| relation_id(row.adrelid)),
        2606 => beside
            .book()
            .constraint_of(oid)
            .map(|row| constraint_end(row)),
        2618 => beside.rewrite_of(oid).map(|row| relation_id(row.ev_class)),
        _ => None,
    }
}

// The rule of a rewrite row, where there is one.
fn rule_of(book: &Book<'_>, row: Option<&RewriteRow>) -> Result<Option<Obj>, AllocError>
    ensures { IfOk result (λ rule. rule ≡ option_map (rule_object book.now) (option_map (λ r. r.now) row.entry)) }
{
    match row {
        Some(row) => Ok(Some(rule_object(book, row)?)),
        None => Ok(None),
    }
}

// The rule of a view, where a dummy view doesn't need the other object too.
fn view_moves(beside: &Beside<'_>, relation: u32, to: ObjId) -> Result<Option<Obj>, AllocError>
    ensures { IfOk result (λ moves. moves ≡ view_moves beside.now relation to) }
{
    if is_kept(beside, relation, to) {
        return Ok(None);
    }
    rule_of(beside.book(), beside.rewrite_of_view(relation))
}

// The default that stands alone, where there is one.
fn default_moves(book: &Book<'_>, row: Option<&AttrdefRow>) -> Result<Option<Obj>, AllocError>
    ensures { IfOk result (λ moves. moves ≡ option_map (default_object book.now) (option_map (λ d. d.now) row.entry)) }
{
    match row {
        Some(row) => Ok(Some(default_object(book, row)?)),
        None => Ok(None),
    }
}

// The rule of the view of a rewrite row, where there is one.
fn rewrite_moves(
    beside: &Beside<'_>,
    row: Option<&RewriteRow>,
    to: ObjId,
) -> Result<Option<Obj>, AllocError>
    ensures { IfOk result (λ moves. moves ≡ option_and_then (λ r. view_moves beside.now r.ev_class to) (option_map (λ r. r.now) row.entry)) }
{
    match row {
        Some(row) => view_moves(beside, row.ev_class, to),
        None => Ok(None),
    }
}

// What the link of what is so named moves to.
fn named_moves(
    beside: &Beside<'_>,
    class: u32,
    oid: u32,
    to: ObjId,
) -> Result<Option<Obj>, AllocError>
    ensures { IfOk result (λ moves. moves ≡ named_moves beside.now class oid to) }
{
    match class {
        2604 => default_moves(beside.book(), beside.default_of(oid)),
        1259 => view_moves(beside, oid, to),
        2618 => rewrite_moves(beside, beside.rewrite_of(oid), to),
        _ => Ok(None),
    }
}

// Adds the link between two objects, where both are there.
fn add_between(
    beside: &Beside<'_>,
    row: &DependRow,
    from: Option<ObjId>,
    to: Option<ObjId>,
    out: &mut Vec<Link>,
) -> Result<(), AllocError>
    ensures { OnOk result (out.new.items ≡ out.old.items ++ between beside.now row.now from to) }
{
    let (Some(from), Some(to)) = (from, to) else {
        return Ok(());
    };
    let moves_to = named_moves(beside, row.classid, row.objid, to)?;
    out.push(Link {
        from,
        to,
        moves_to,
        stays: false,
    })?;
    Ok(())
}

impl Linked for DependRow {
    ghost links = { depend_links };

    #[tactic(auto, unfolding(obj_graph::specs::DependLinks::depend_links))]
    fn add_links(
        &self,
        alloc: Global,
        beside: &Beside<'_>,
        out: &mut Vec<Link>,
    ) -> Result<(), AllocError> {
        let from = named_end(beside, self.classid, self.objid);
        let to = named_end(beside, self.refclassid, self.refobjid);
        add_between(beside, self, from, to, out)
    }
}

//! What constraints and indexes depend on.
ghost use Rattle.std.specs.Prelude.{◌≡◌, ◌++◌, map, OnOk, IfOk, if◌then◌else◌};
ghost use Rattle.obj_graph.specs.ConstraintLinks.{check_links, parent_columns, keys_on, foreign_links, constraint_links, index_links};
ghost use Rattle.obj_graph.specs.Links.{link};

use crate::depend_links::check_owner;
use crate::links::{Linked, add_to_all, link, reference_ends};
use cat_rows::{ConstraintRow, IndexRow};
use constraint_table::{ConstraintText, constraint_said};
use copy_text::Name;
use graph_parts::ObjId;
use obj_beside::Beside;
use obj_graph::{Link, constraint_id, relation_id};
use std::alloc::{AllocError, Global};
use stmt_refs::expr_refs;

// Adds what a check refers to.
fn add_check(
    alloc: Global,
    beside: &Beside<'_>,
    row: &ConstraintRow,
    out: &mut Vec<Link>,
) -> Result<(), AllocError>
    ensures { OnOk result (out.new.items ≡ out.old.items ++ check_links beside.now row.now) }
{
    let keys = expr_refs(alloc, row.condef.as_bytes())?;
    let ends = reference_ends(alloc, beside, &keys)?;
    add_to_all(check_owner(row), &None, &ends, out)
}

// The columns that a foreign key names of its parent.
fn parent_columns(said: &Option<ConstraintText>) -> &[Name]
    ensures { result.now ≡ parent_columns said.now }
{
    match said {
        Some(ConstraintText::Foreign { parent_columns, .. }) => parent_columns.as_slice(),
        _ => &[],
    }
}

// Adds the parent of a foreign key, and the keys there on the same columns.
fn add_parent(
    alloc: Global,
    beside: &Beside<'_>,
    row: &ConstraintRow,
    out: &mut Vec<Link>,
) -> Result<(), AllocError>
    ensures { OnOk result (out.new.items ≡ out.old.items ++ foreign_links beside.now row.now) }
{
    out.push(link(constraint_id(row.oid), relation_id(row.confrelid)))?;
    let said = constraint_said(alloc, row.condef.as_bytes())?;
    let keys = beside.keys_on(alloc, row.confrelid, parent_columns(&said))?;
    add_to_all(constraint_id(row.oid), &None, &keys, out)
}

impl Linked for ConstraintRow {
    ghost links = { constraint_links };

    #[tactic(auto, unfolding(obj_graph::specs::ConstraintLinks::constraint_links))]
    fn add_links(
        &self,
        alloc: Global,
        beside: &Beside<'_>,
        out: &mut Vec<Link>,
    ) -> Result<(), AllocError> {
        if self.contype.byte() == b'c' {
            return add_check(alloc, beside, self, out);
        }
        out.push(link(constraint_id(self.oid), relation_id(self.conrelid)))?;
        if self.contype.byte() == b'f' {
            add_parent(alloc, beside, self, out)?;
        }
        Ok(())
    }
}

impl Linked for IndexRow {
    ghost links = { λ cat row. index_links row };

    #[tactic(auto, unfolding(obj_graph::specs::ConstraintLinks::index_links))]
    fn add_links(
        &self,
        alloc: Global,
        beside: &Beside<'_>,
        out: &mut Vec<Link>,
    ) -> Result<(), AllocError> {
        out.push(link(relation_id(self.indexrelid), relation_id(self.indrelid)))?;
        Ok(())
    }
}

//! What stands before the data and behind them.
ghost use Rattle.std.specs.Prelude.{◌≡◌, ◌++◌, OnOk};
ghost use Rattle.obj_graph.specs.BoundaryLinks.{boundary_links_by, boundary_links};

use crate::links::{Linked, link};
use graph_parts::{Obj, ObjId, ObjKind};
use obj_beside::Beside;
use obj_graph::{Link, post_data, pre_data};
use std::alloc::{AllocError, Global};

// Adds the links of an object of a kind to or from the boundaries.
fn add_boundary_links(kind: ObjKind, id: ObjId, out: &mut Vec<Link>) -> Result<(), AllocError>
    ensures { OnOk result (out.new.items ≡ out.old.items ++ boundary_links_by kind id) }
{
    match kind {
        ObjKind::Schema
        | ObjKind::UserType
        | ObjKind::Table
        | ObjKind::View
        | ObjKind::Dummy
        | ObjKind::Sequence
        | ObjKind::Default => out.push(link(pre_data(), id))?,
        ObjKind::PreData => out.push(link(post_data(), pre_data()))?,
        ObjKind::TableData | ObjKind::SeqValue => {
            out.push(link(id, pre_data()))?;
            out.push(link(post_data(), id))?;
        }
        ObjKind::PostData => {}
        ObjKind::Constraint | ObjKind::Index | ObjKind::Rule | ObjKind::Foreign => {
            out.push(link(id, post_data()))?
        }
    }
    Ok(())
}

impl Linked for Obj {
    ghost links = { λ cat o. boundary_links o };

    #[tactic(auto, unfolding(obj_graph::specs::BoundaryLinks::boundary_links))]
    fn add_links(
        &self,
        alloc: Global,
        beside: &Beside<'_>,
        out: &mut Vec<Link>,
    ) -> Result<(), AllocError> {
        add_boundary_links(self.kind, self.id, out)
    }
}

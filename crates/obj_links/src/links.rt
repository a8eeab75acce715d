//! The links of one row after another.
ghost use Rattle.std.specs.Prelude.{◌≡◌, ◌++◌, None, map, filter_map, OnOk, IfOk};
ghost use Rattle.std.specs.List.{flat_map};
ghost use Rattle.obj_graph.specs.Links.{linked, reference_end};

use cat_model::Key;
use graph_parts::{Obj, ObjId};
use obj_beside::Beside;
use obj_graph::Link;
use std::alloc::{AllocError, Global};

/// What tells of links: a row of a table, or an object.
pub(crate) trait Linked {
    ghost use Rattle.std.specs.Prelude.{List};
    ghost use Rattle.cat_rows.specs.declared.catalogue.Catalogue.{Catalogue};
    ghost use Rattle.obj_graph.specs.declared.link.Link.{Link as LinkValue};

    ghost links: { Catalogue → Self → List LinkValue };

    /// Adds its links behind others.
    fn add_links(
        &self,
        alloc: Global,
        beside: &Beside<'_>,
        out: &mut Vec<Link>,
    ) -> Result<(), AllocError>
        ensures { OnOk result (out.new.items ≡ out.old.items ++ links beside.now self.now) };
}

/// Adds the links of all of these.
pub(crate) fn add_all<L: Linked>(
    alloc: Global,
    beside: &Beside<'_>,
    all: &[L],
    out: &mut Vec<Link>,
) -> Result<(), AllocError>
    ensures { OnOk result (out.new.items ≡ out.old.items ++ flat_map (L.links beside.now) all.now) }
{
    for one in all {
        one.add_links(alloc, beside, out)?;
    }
    Ok(())
}

/// A link that never moves.
pub(crate) fn link(from: ObjId, to: ObjId) -> Link
    ensures { result ≡ linked from None to }
{
    Link {
        from,
        to,
        moves_to: None,
        stays: false,
    }
}

// A copy of an object, where there is one.
fn same_object(object: &Option<Obj>) -> Result<Option<Obj>, AllocError>
    ensures { IfOk result (λ same. same ≡ object.now) }
{
    match object {
        Some(object) => Ok(Some(object.clone()?)),
        None => Ok(None),
    }
}

/// Adds a link to each of these objects, which moves where there is something that it may move to.
pub(crate) fn add_to_all(
    from: ObjId,
    moves_to: &Option<Obj>,
    ends: &[ObjId],
    out: &mut Vec<Link>,
) -> Result<(), AllocError>
    ensures { OnOk result (out.new.items ≡ out.old.items ++ map (linked from moves_to.now) ends.now) }
{
    for to in ends {
        let moves_to = same_object(moves_to)?;
        out.push(Link {
            from,
            to: *to,
            moves_to,
            stays: false,
        })?;
    }
    Ok(())
}

/// What these references lead to.
pub(crate) fn reference_ends(
    alloc: Global,
    beside: &Beside<'_>,
    keys: &[Key],
) -> Result<Vec<ObjId>, AllocError>
    ensures { IfOk result (λ ends. ends.items ≡ filter_map (reference_end beside.now) keys.now) }
{
    keys.iter()
        .filter_map(|key| beside.reference_end(key))
        .collect(alloc)
}

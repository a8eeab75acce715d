//! The graph of a selection.
ghost use Rattle.std.specs.Prelude.{◌≡◌, [], ◌∷◌, ◌++◌, ◌+◌, ◌^◌, ◌<◌, length, filter_map, IfOk, OnOk, IsTrue, List};
ghost use Rattle.std.specs.List.{flat_map};
ghost use Rattle.graph_parts.specs.declared.object.Obj.{Obj as Object};
ghost use Rattle.obj_beside.specs.Firsts.{AreFirsts};
ghost use Rattle.obj_graph.specs.BoundaryLinks.{boundary_links};
ghost use Rattle.obj_graph.specs.Due.{Gives, objects_due};
ghost use Rattle.obj_graph.specs.Graphs.{holder_links, other_links, links, numbered, place_of, between, edge_of, edges_between, graph_of};
ghost use Rattle.obj_graph.specs.Ids.{id_cmp};

use crate::links::add_all;
use crate::object_list::objects_of;
use cat_book::Book;
use graph_parts::{Edge, Graph, Obj, ObjId};
use obj_beside::{Beside, add_first};
use obj_graph::{Link, ObjectsError, Select, select_fault};
use std::alloc::{AllocError, Global};
use std::collections::BTreeMap;
use well_formed::WellFormed;

// ---- links

// Adds what the rows of types, relations, columns and defaults say.
#[tactic(auto, unfolding(obj_graph::specs::Graphs::holder_links))]
fn add_holder_links(
    alloc: Global,
    beside: &Beside<'_>,
    out: &mut Vec<Link>,
) -> Result<(), AllocError>
    ensures { OnOk result (out.new.items ≡ out.old.items ++ holder_links beside.now) }
{
    let tables = beside.book().tables();
    add_all(alloc, beside, tables.pg_type.as_slice(), out)?;
    add_all(alloc, beside, tables.pg_class.as_slice(), out)?;
    add_all(alloc, beside, tables.pg_attribute.as_slice(), out)?;
    add_all(alloc, beside, tables.pg_attrdef.as_slice(), out)?;
    Ok(())
}

// Adds what those of constraints, indexes, sequences and views say, and pg_depend.
#[tactic(auto, unfolding(obj_graph::specs::Graphs::other_links))]
fn add_other_links(
    alloc: Global,
    beside: &Beside<'_>,
    out: &mut Vec<Link>,
) -> Result<(), AllocError>
    ensures { OnOk result (out.new.items ≡ out.old.items ++ other_links beside.now) }
{
    let tables = beside.book().tables();
    add_all(alloc, beside, tables.pg_constraint.as_slice(), out)?;
    add_all(alloc, beside, tables.pg_index.as_slice(), out)?;
    add_all(alloc, beside, tables.pg_sequence.as_slice(), out)?;
    add_all(alloc, beside, tables.pg_rewrite.as_slice(), out)?;
    add_all(alloc, beside, tables.pg_depend.as_slice(), out)?;
    Ok(())
}

// All links of a catalogue, and those of objects to the boundaries.
fn links_of(alloc: Global, beside: &Beside<'_>, objects: &[Obj]) -> Result<Vec<Link>, AllocError>
    ensures { IfOk result (λ ls. ls.items ≡ links beside.now ++ flat_map boundary_links objects.now) }
{
    let mut out = Vec::new(alloc);
    add_holder_links(alloc, beside, &mut out)?;
    add_other_links(alloc, beside, &mut out)?;
    add_all(alloc, beside, objects, &mut out)?;
    Ok(out)
}

// ---- edges

// The greatest number of objects and edges together, and one more.
const PLACES: usize = 1 << 32;

// The places of objects, by their ids.
fn places_of(alloc: Global, objects: &[Obj]) -> Result<BTreeMap<ObjId, u32>, AllocError>
    requires { length objects.now < 2 ^ 32 }
    ensures { IfOk result (λ places. AreFirsts id_cmp places (numbered objects.now)) }
{
    let mut places = BTreeMap::new(alloc);
    for (place, object) in objects.iter().enumerate() {
        add_first(&mut places, object.id, place as u32)?;
    }
    Ok(places)
}

// The place of the object of an id.
fn place_of(places: &BTreeMap<ObjId, u32>, id: ObjId) -> Option<u32>
    ensures { (objects : List Object) → AreFirsts id_cmp places.now (numbered objects) → result ≡ place_of objects id }
{
    places.get(&id).copied()
}

// The edge of a link between two places; none where one of the two isn't there, or both are one.
fn between(link: Link, from: Option<u32>, to: Option<u32>) -> Option<Edge>
    ensures { result ≡ between link from to }
{
    let (Some(from), Some(to)) = (from, to) else {
        return None;
    };
    if from == to {
        return None;
    }
    Some(Edge {
        from,
        to,
        moves_to: link.moves_to,
        stays: link.stays,
    })
}

// The edge of a link between two of these objects.
fn edge_of(places: &BTreeMap<ObjId, u32>, link: Link) -> Option<Edge>
    ensures { (objects : List Object) → AreFirsts id_cmp places.now (numbered objects) → result ≡ edge_of objects link }
{
    let from = place_of(places, link.from);
    let to = place_of(places, link.to);
    between(link, from, to)
}

// Adds an edge, where there is one.
fn push_edge(edges: &mut Vec<Edge>, edge: Option<Edge>) -> Result<(), AllocError>
    ensures { OnOk result (edges.new.items ≡ edges.old.items ++ filter_map (λ e. e) (edge ∷ [])) }
{
    if let Some(edge) = edge {
        edges.push(edge)?;
    }
    Ok(())
}

// The edges of links between two of these objects.
#[tactic(auto, unfolding(obj_graph::specs::Graphs::edges_between))]
fn edges_between(alloc: Global, objects: &[Obj], links: Vec<Link>) -> Result<Vec<Edge>, AllocError>
    requires { length objects.now < 2 ^ 32 }
    ensures { IfOk result (λ edges. edges.items ≡ edges_between objects.now links.items) }
{
    let places = places_of(alloc, objects)?;
    let mut edges = Vec::new(alloc);
    let mut left = links.into_iter();
    'links: while let Some(link) = left.next() {
        push_edge(&mut edges, edge_of(&places, link))?;
    }
    Ok(edges)
}

// The same of all links, where there are not too many objects.
fn edges_of(alloc: Global, beside: &Beside<'_>, objects: &[Obj]) -> Result<Vec<Edge>, AllocError>
    ensures { IfOk result (λ edges. edges.items ≡ edges_between objects.now (links beside.now ++ flat_map boundary_links objects.now)) }
{
    if objects.len() >= PLACES {
        return Err(AllocError);
    }
    let links = links_of(alloc, beside, objects)?;
    edges_between(alloc, objects, links)
}

// Whether so many objects and edges have places.
fn are_few(objects: usize, edges: usize) -> bool
    ensures { IsTrue result → objects + edges < 2 ^ 32 }
{
    objects < PLACES && edges < PLACES - objects
}

#[tactic(auto, unfolding(obj_graph::specs::Graphs::graph_of))]
fn graph_of(alloc: Global, beside: &Beside<'_>, select: &Select) -> Result<Graph, AllocError>
    ensures { IfOk result (λ graph. graph ≡ graph_of beside.now select.now) }
{
    let objects = objects_of(alloc, beside, select)?;
    let edges = edges_of(alloc, beside, &objects)?;
    if !are_few(objects.len(), edges.len()) {
        return Err(AllocError);
    }
    Ok(Graph::new(objects, edges))
}

// ---- the graph of a selection

// The graph of a selection of a catalogue with its book.
fn objects_in(alloc: Global, book: &Book<'_>, select: &Select) -> Result<Graph, ObjectsError>
    ensures { Gives result (objects_due book.now select.now) }
{
    if let Some(fault) = select_fault(book, select) {
        return Err(ObjectsError::Fault(fault));
    }
    let beside = Beside::of(alloc, book)?;
    let graph = graph_of(alloc, &beside, select)?;
    Ok(graph)
}

/// The objects that a selection chooses of a catalogue, and which of them depend on which.
///
/// `Fault` names the pattern of what is taken that is refused since it hits nothing: with `strict` the first such, without it
/// the first of a list that together hits nothing; schemas are tried first. `Memory` may be answered for any selection.
/// <https://www.postgresql.org/docs/16/app-pgdump.html>
pub fn objects(alloc: Global, cat: &WellFormed, select: &Select) -> Result<Graph, ObjectsError>
    ensures { Gives result (objects_due cat.now select.now) }
{
    let book = cat.book(alloc)?;
    let graph = objects_in(alloc, &book, select)?;
    Ok(graph)
}

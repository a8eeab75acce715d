//! The order of a dump's objects, or the loop that keeps them from one.
ghost use Rattle.std.specs.Prelude.{◌≡◌, ℕ, ◌^◌, ◌<◌, [], length, All, IfOk, map, nat_eq, filter_map, option_map, slice_get, slice_index_or};
ghost use Rattle.std.specs.List.{IsDistinct, dedup, range_with_len};
ghost use Rattle.graph_walks.specs.Arcs.{AreWithin, arcs_from};
ghost use Rattle.graph_walks.specs.Starts.{IsRising};
ghost use Rattle.dep_sort.specs.Answering.{IsTold, Gives};
ghost use Rattle.dep_sort.specs.Ordering.{final_places, depends_of, sorted, loop_of, due};
ghost use Rattle.dep_sort.specs.declared.ordering.OrderError.TheVariants.{Memory};

use crate::cut::Cut;
use crate::cut_graph::{final_places, loop_places, renumber};
use graph_parts::{Graph, Obj, ObjId};
use graph_walks::Arcs;
use std::alloc::{AllocError, Global};
use std::marker::Model;
use thiserror::Error;

/// Why objects have no order.
#[derive(Debug, Drop, Error)]
pub enum OrderError {
    /// Objects need each other in a loop that nothing breaks: their ids along it, from the least by class and oid that lies on
    /// one back to itself.
    #[error("objects need each other in a loop")]
    Loop(Vec<ObjId>),
    /// Memory ran out.
    #[error("out of memory")]
    Memory,
}

impl From<AllocError> for OrderError {
    ghost from_gives = { λ _ e. e ≡ Memory };

    fn from(_e: AllocError) -> OrderError {
        OrderError::Memory
    }
}

/// Objects in an order in which each stands behind those that it needs. A contract sees the objects, and of each the places
/// of those.
#[derive(Drop)]
pub struct Ordered {
    objects: Vec<Obj>,
    depends: Vec<Vec<u32>>,
}

impl Model for Ordered {
    ghost use Rattle.std.specs.Prelude.{◌≡◌, length, map};
    ghost use Rattle.dep_sort.specs.Ordering.{Sorted};

    ghost Value = { Sorted };

    ghost view = { λ o. record { objects = o.objects.items; depends = map (λ d. d.items) o.depends.items } };

    ghost invariant = { λ o. length o.depends.items ≡ length o.objects.items };
}

impl Ordered {
    /// The objects in their order.
    pub fn objects(&self) -> &[Obj]
        ensures { result.now ≡ self.now.objects }
    {
        &self.objects
    }

    /// The objects themselves.
    pub fn into_objects(self) -> Vec<Obj>
        ensures { result.items ≡ self.objects }
    {
        self.objects
    }

    /// The places, counted from 0, of the objects that the one at this place needs, rising.
    pub fn depends(&self, place: usize) -> &[u32]
        requires { place < length self.now.objects }
        ensures { result.now ≡ slice_index_or self.now.depends place [] }
    {
        &self.depends[place]
    }
}

/// The order of a dump's objects, in which each stands behind all that it needs: a table's default, and a view's rule, are
/// objects of their own where the table or the view would lie on a loop else. Objects that need nothing of each other stand
/// by kinds, then by names, a default's column and oids, as far as it goes. The time is that of a sort of the objects and
/// of the edges.
///
/// It fails where a loop is left that no default and no rule can break, and where memory runs out.
pub fn order(alloc: Global, graph: &Graph) -> Result<Ordered, OrderError>
    ensures { Gives result (due graph.now) }
{
    let cut = Cut::of(alloc, graph)?;
    let places = final_places(alloc, cut.objects(), cut.arcs())?;
    if places.len() == cut.objects().len() {
        Ok(put_in_order(alloc, &cut, &places)?)
    } else {
        Err(told(alloc, &cut))
    }
}

// The objects at the places of the final order.
fn put_in_order(alloc: Global, cut: &Cut, places: &[usize]) -> Result<Ordered, AllocError>
    requires value { places.now ≡ final_places cut.now }
    requires within { All (λ place. place < length cut.now.objects) places.now }
    requires distinct { IsDistinct nat_eq places.now }
    requires whole { length places.now ≡ length cut.now.objects }
    ensures { IfOk result (λ order. order ≡ sorted cut.now) }
{
    let given = cut.objects();
    let depends = depends_of(alloc, places, cut.arcs())?;
    let objects = objects_at(alloc, given, places)?;
    Ok(Ordered { objects, depends })
}

// The loop that is left, or that memory ran out.
fn told(alloc: Global, cut: &Cut) -> OrderError
    ensures { IsTold result (loop_of cut.now) }
{
    match loop_ids(alloc, cut) {
        Ok(path) => OrderError::Loop(path),
        Err(_) => OrderError::Memory,
    }
}

fn loop_ids(alloc: Global, cut: &Cut) -> Result<Vec<ObjId>, AllocError>
    ensures { IfOk result (λ path. path.items ≡ loop_of cut.now) }
{
    let places = loop_places(alloc, cut.objects(), cut.arcs())?;
    ids_at(alloc, cut.objects(), &places)
}

// Of each of these places, the others that it needs, by where they stand.
fn depends_of(
    alloc: Global,
    places: &[usize],
    arcs: &[(usize, usize)],
) -> Result<Vec<Vec<u32>>, AllocError>
    requires few { length places.now < 2 ^ 32 }
    requires places { All (λ place. place < length places.now) places.now }
    requires within { AreWithin (length places.now) arcs.now }
    requires distinct { IsDistinct nat_eq places.now }
    ensures value { IfOk result (λ depends. map (λ d. d.items) depends.items ≡ depends_of arcs.now places.now) }
    ensures count { IfOk result (λ depends. length depends.items ≡ length places.now) }
{
    let net = renumber(alloc, places, arcs)?;
    all_ends(alloc, &net)
}

// Where the arcs of each place end.
fn all_ends(alloc: Global, net: &Arcs) -> Result<Vec<Vec<u32>>, AllocError>
    ensures rising { (place : ℕ) → IsRising (arcs_from place net.now.arcs) }
    ensures ends { IfOk result (λ ends. map (λ e. e.items) ends.items ≡ map (λ place. dedup nat_eq (map (λ arc. arc.1) (arcs_from place net.now.arcs))) (range_with_len 0 net.now.count)) }
{
    let mut ends = Vec::new(alloc);
    for place in 0..net.count() {
        ends.push(ends_of(alloc, net.from(place))?)?;
    }
    Ok(ends)
}

// Where arcs in order end, each once.
fn ends_of(alloc: Global, arcs: &[(usize, usize)]) -> Result<Vec<u32>, AllocError>
    requires { All (λ arc. arc.1 < 2 ^ 32) arcs.now }
    ensures { IfOk result (λ ends. ends.items ≡ dedup nat_eq (map (λ arc. arc.1) arcs.now)) }
{
    let mut ends = Vec::new(alloc);
    for arc in arcs {
        ends.push(arc.1 as u32)?;
    }
    ends.dedup();
    Ok(ends)
}

fn objects_at(alloc: Global, objects: &[Obj], places: &[usize]) -> Result<Vec<Obj>, AllocError>
    requires { All (λ place. place < length objects.now) places.now }
    ensures value { IfOk result (λ found. found.items ≡ filter_map (slice_get objects.now) places.now) }
    ensures count { IfOk result (λ found. length found.items ≡ length places.now) }
{
    let mut found = Vec::new(alloc);
    for place in places {
        found.push(objects[*place].clone()?)?;
    }
    Ok(found)
}

fn ids_at(alloc: Global, objects: &[Obj], places: &[usize]) -> Result<Vec<ObjId>, AllocError>
    requires { All (λ place. place < length objects.now) places.now }
    ensures { IfOk result (λ found. found.items ≡ filter_map (λ place. option_map (λ object. object.id) (slice_get objects.now place)) places.now) }
{
    let mut found = Vec::new(alloc);
    for place in places {
        found.push(objects[*place].id)?;
    }
    Ok(found)
}

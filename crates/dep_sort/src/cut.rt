//! The graph in which no edge breaks any more.
ghost use Rattle.std.specs.Prelude.{◌≡◌, ℕ, ◌+◌, ◌^◌, ◌<◌, ◌&&◌, ◌++◌, [], ◌∷◌, nat_eq, false, length, All, IfOk, OnOk, map, slice_index_or, if◌then◌else◌};
ghost use Rattle.std.specs.List.{enumerate_from, flat_map, list_any};
ghost use Rattle.graph_parts.specs.declared.object.ObjKind.TheVariants.{Dummy};
ghost use Rattle.graph_parts.specs.Parts.{LeadsAcross};
ghost use Rattle.graph_walks.specs.Arcs.{AreWithin};
ghost use Rattle.dep_sort.specs.Cut.{is_view, is_default, is_rule, is_pre_data, is_post_data, breaks, moved_arcs, places_of, bound_arcs, without_body, cut};

use crate::cutting::breaking;
use crate::made::Made;
use graph_parts::{Edge, Graph, Obj, ObjKind};
use std::alloc::{AllocError, Global};
use std::marker::Model;

/// Objects and arcs among them: the cut graph of a dump.
#[derive(Drop)]
pub struct Cut {
    objects: Vec<Obj>,
    arcs: Vec<(usize, usize)>,
}

impl Model for Cut {
    ghost use Rattle.std.specs.Prelude.{◌^◌, ◌<◌, length};
    ghost use Rattle.graph_walks.specs.Arcs.{AreWithin};
    ghost use Rattle.dep_sort.specs.Cut.{CutGraph};

    ghost Value = { CutGraph };

    ghost view = { λ c. record { objects = c.objects.items; arcs = c.arcs.items } };

    ghost invariant = { λ c. (length c.objects.items < 2 ^ 32) × AreWithin (length c.objects.items) c.arcs.items };
}

impl Cut {
    /// What is left of a graph: no view has a body of which an edge breaks, and the defaults and rules that are made stand
    /// behind the other objects. The only error is that memory ran out.
    pub fn of(alloc: Global, graph: &Graph) -> Result<Cut, AllocError>
        ensures { IfOk result (λ left. left ≡ cut graph.now) }
    {
        let breaking = breaking(alloc, graph)?;
        let made = Made::of(alloc, graph.edges(), &breaking)?;
        let arcs = cut_arcs(alloc, graph, &made)?;
        let objects = cut_objects(alloc, graph, &breaking, made)?;
        Ok(Cut { objects, arcs })
    }

    /// The objects.
    pub fn objects(&self) -> &[Obj]
        ensures value { result.now ≡ self.now.objects }
        ensures few { length result.now < 2 ^ 32 }
        ensures within { AreWithin (length result.now) self.now.arcs }
    {
        &self.objects
    }

    /// Which of them needs which.
    pub fn arcs(&self) -> &[(usize, usize)]
        ensures { result.now ≡ self.now.arcs }
    {
        &self.arcs
    }
}

// What is needed once the objects are made, in the order of the edges and then of what was made.
fn cut_arcs(alloc: Global, graph: &Graph, made: &Made) -> Result<Vec<(usize, usize)>, AllocError>
    requires { length graph.now.objects + length made.now < 2 ^ 32 }
    ensures { IfOk result (λ arcs. arcs.items ≡ flat_map (moved_arcs (length graph.now.objects) made.now) graph.now.edges ++ flat_map (bound_arcs graph.now.objects) (enumerate_from 0 made.now)) }
{
    let mut arcs = moved_arcs(alloc, graph.objects().len(), graph.edges(), made)?;
    let mut bounds = bound_arcs(alloc, graph.objects(), made.objects())?;
    arcs.append(&mut bounds)?;
    Ok(arcs)
}

fn moved_arcs(
    alloc: Global,
    count: usize,
    edges: &[Edge],
    made: &Made,
) -> Result<Vec<(usize, usize)>, AllocError>
    requires { count + length made.now < 2 ^ 32 }
    ensures { IfOk result (λ arcs. arcs.items ≡ flat_map (moved_arcs count made.now) edges.now) }
{
    let mut arcs = Vec::new(alloc);
    for edge in edges {
        push_moved(&mut arcs, count, edge, made)?;
    }
    Ok(arcs)
}

// What is needed in place of an edge that the object at a place among those that are made takes over.
fn push_moved(
    arcs: &mut Vec<(usize, usize)>,
    count: usize,
    edge: &Edge,
    made: &Made,
) -> Result<(), AllocError>
    requires { count + length made.now < 2 ^ 32 }
    ensures { OnOk result (arcs.new.items ≡ arcs.old.items ++ moved_arcs count made.now edge.now) }
{
    let own = (edge.from as usize, edge.to as usize);
    let Some(at) = made.taker(edge) else {
        return push_all(arcs, &[own]);
    };
    let taker = count + at;
    if edge.stays {
        push_all(arcs, &[(taker, own.1), (taker, own.0), own])
    } else {
        push_all(arcs, &[(taker, own.1), (taker, own.0)])
    }
}

fn push_all(arcs: &mut Vec<(usize, usize)>, more: &[(usize, usize)]) -> Result<(), AllocError>
    ensures { OnOk result (arcs.new.items ≡ arcs.old.items ++ more.now) }
{
    for arc in more {
        arcs.push(*arc)?;
    }
    Ok(())
}

// That what is made stands on its side of the data.
fn bound_arcs(
    alloc: Global,
    objects: &[Obj],
    made: &[Obj],
) -> Result<Vec<(usize, usize)>, AllocError>
    requires { length objects.now + length made.now < 2 ^ 32 }
    ensures { IfOk result (λ arcs. arcs.items ≡ flat_map (bound_arcs objects.now) (enumerate_from 0 made.now)) }
{
    let bounds = Bounds::of(alloc, objects)?;
    let mut arcs = Vec::new(alloc);
    for (at, object) in made.iter().enumerate() {
        bounds.push_arcs(&mut arcs, objects.len() + at, object.kind)?;
    }
    Ok(arcs)
}

// Where the boundaries of the data stand.
#[derive(Drop)]
struct Bounds {
    pre_data: Vec<usize>,
    post_data: Vec<usize>,
}

impl Bounds {
    fn of(alloc: Global, objects: &[Obj]) -> Result<Bounds, AllocError>
        ensures pre_data { IfOk result (λ bounds. bounds.pre_data.items ≡ places_of is_pre_data objects.now) }
        ensures post_data { IfOk result (λ bounds. bounds.post_data.items ≡ places_of is_post_data objects.now) }
    {
        let mut bounds = Bounds {
            pre_data: Vec::new(alloc),
            post_data: Vec::new(alloc),
        };
        for (place, object) in objects.iter().enumerate() {
            bounds.note(place, object.kind)?;
        }
        Ok(bounds)
    }

    fn note(&mut self, place: usize, kind: ObjKind) -> Result<(), AllocError>
        ensures pre_data { OnOk result (self.new.pre_data.items ≡ self.old.pre_data.items ++ (if is_pre_data kind then place ∷ [] else [])) }
        ensures post_data { OnOk result (self.new.post_data.items ≡ self.old.post_data.items ++ (if is_post_data kind then place ∷ [] else [])) }
    {
        match kind {
            ObjKind::PreData => self.pre_data.push(place)?,
            ObjKind::PostData => self.post_data.push(place)?,
            _ => {}
        }
        Ok(())
    }

    fn push_arcs(
        &self,
        arcs: &mut Vec<(usize, usize)>,
        place: usize,
        kind: ObjKind,
    ) -> Result<(), AllocError>
        ensures { OnOk result (arcs.new.items ≡ arcs.old.items ++ ((if is_default kind then map (λ bound. (bound, place)) self.now.pre_data.items else []) ++ (if is_rule kind then map (λ bound. (place, bound)) self.now.post_data.items else []))) }
    {
        match kind {
            ObjKind::Default => push_before(arcs, place, &self.pre_data),
            ObjKind::Rule => push_behind(arcs, place, &self.post_data),
            _ => Ok(()),
        }
    }
}

fn push_before(
    arcs: &mut Vec<(usize, usize)>,
    place: usize,
    bounds: &[usize],
) -> Result<(), AllocError>
    ensures { OnOk result (arcs.new.items ≡ arcs.old.items ++ map (λ bound. (bound, place)) bounds.now) }
{
    for bound in bounds {
        arcs.push((*bound, place))?;
    }
    Ok(())
}

fn push_behind(
    arcs: &mut Vec<(usize, usize)>,
    place: usize,
    bounds: &[usize],
) -> Result<(), AllocError>
    ensures { OnOk result (arcs.new.items ≡ arcs.old.items ++ map (λ bound. (place, bound)) bounds.now) }
{
    for bound in bounds {
        arcs.push((place, *bound))?;
    }
    Ok(())
}

// The objects, of which some views have no body any more, and those that are made.
fn cut_objects(
    alloc: Global,
    graph: &Graph,
    breaking: &[bool],
    made: Made,
) -> Result<Vec<Obj>, AllocError>
    requires { breaking.now ≡ map (breaks graph.now.edges) graph.now.edges }
    ensures { IfOk result (λ objects. objects.items ≡ map (without_body graph.now.edges) (enumerate_from 0 graph.now.objects) ++ made) }
{
    let bodiless = bodiless(alloc, graph.objects().len(), graph.edges(), breaking)?;
    let mut objects = without_bodies(alloc, graph.objects(), &bodiless)?;
    objects.append(&mut made.into_objects())?;
    Ok(objects)
}

// At which places edges begin that break.
fn bodiless(
    alloc: Global,
    count: usize,
    edges: &[Edge],
    breaking: &[bool],
) -> Result<Vec<bool>, AllocError>
    requires ends { All (LeadsAcross count) edges.now }
    requires breaking { breaking.now ≡ map (breaks edges.now) edges.now }
    ensures count { IfOk result (λ bodiless. length bodiless.items ≡ count) }
    ensures each { IfOk result (λ bodiless. (place : ℕ) → place < count → slice_index_or bodiless.items place false ≡ list_any (λ edge. nat_eq edge.from place && breaks edges.now edge) edges.now) }
{
    let mut bodiless = vec![in alloc; false; count]?;
    for (at, edge) in edges.iter().enumerate() {
        if breaking[at] {
            bodiless[edge.from as usize] = true;
        }
    }
    Ok(bodiless)
}

fn without_bodies(alloc: Global, objects: &[Obj], bodiless: &[bool]) -> Result<Vec<Obj>, AllocError>
    requires { length bodiless.now ≡ length objects.now }
    ensures { IfOk result (λ left. left.items ≡ map (λ e. if is_view e.1.kind && slice_index_or bodiless.now e.0 false then record e.1 { kind = Dummy } else e.1) (enumerate_from 0 objects.now)) }
{
    let mut left = Vec::new(alloc);
    for (place, object) in objects.iter().enumerate() {
        left.push(left_of(object, bodiless[place])?)?;
    }
    Ok(left)
}

// The object, which is a view without a body if it is a view that loses it.
fn left_of(object: &Obj, loses: bool) -> Result<Obj, AllocError>
    ensures { IfOk result (λ left. left ≡ (if is_view object.now.kind && loses then record object.now { kind = Dummy } else object.now)) }
{
    let mut left = object.clone()?;
    if is_view(left.kind) && loses {
        left.kind = ObjKind::Dummy;
    }
    Ok(left)
}

fn is_view(kind: ObjKind) -> bool
    ensures { result ≡ is_view kind }
{
    matches!(kind, ObjKind::View)
}

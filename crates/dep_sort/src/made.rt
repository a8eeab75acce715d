//! The defaults and rules that are made because edges break.
ghost use Rattle.std.specs.Prelude.{◌≡◌, ◌<◌, ◌≤◌, [], ◌∷◌, ◌++◌, None, IfOk, IfSome, OnOk, length, map, if◌then◌else◌};
ghost use Rattle.std.specs.Option.{option_map_or};
ghost use Rattle.dep_sort.specs.Cut.{breaks, made_at, made_once, made_by, taker};

use graph_parts::{Edge, Obj, ObjId};
use std::alloc::{AllocError, Global};
use std::collections::BTreeMap;
use std::marker::Model;

/// Objects that are made, found by their ids. A contract sees the list of them.
#[derive(Drop)]
pub struct Made {
    objects: Vec<Obj>,
    places: BTreeMap<ObjId, usize>,
}

impl Model for Made {
    ghost use Rattle.std.specs.Prelude.{List};
    ghost use Rattle.graph_parts.specs.declared.object.Obj.{Obj};
    ghost use Rattle.dep_sort.specs.Indexed.{IsIndexed};

    ghost Value = { List Obj };

    ghost view = { λ m. m.objects.items };

    ghost invariant = { λ m. IsIndexed m.objects.items m.places };
}

impl Made {
    /// What is made where these edges break: the object that each edge which breaks moves to, once, in the order of the
    /// edges. The only error is that memory ran out.
    pub fn of(alloc: Global, edges: &[Edge], breaking: &[bool]) -> Result<Made, AllocError>
        requires { breaking.now ≡ map (breaks edges.now) edges.now }
        ensures value { IfOk result (λ made. made ≡ made_by edges.now edges.now []) }
        ensures few { IfOk result (λ made. length made ≤ length edges.now) }
    {
        let mut made = Made::new(alloc);
        for (place, edge) in edges.iter().enumerate() {
            made.make_for(edge, breaking[place])?;
        }
        Ok(made)
    }

    fn new(alloc: Global) -> Made
        ensures { result ≡ [] }
    {
        Made {
            objects: Vec::new(alloc),
            places: BTreeMap::new(alloc),
        }
    }

    /// The objects.
    pub fn objects(&self) -> &[Obj]
        ensures { result.now ≡ self.now }
    {
        &self.objects
    }

    /// The objects themselves.
    pub fn into_objects(self) -> Vec<Obj>
        ensures { result.items ≡ self }
    {
        self.objects
    }

    /// Where the object stands that takes this edge over, counted from 0; `None` where none was made for it.
    pub fn taker(&self, edge: &Edge) -> Option<usize>
        ensures value { result ≡ taker self.now edge.now }
        ensures low { IfSome result (λ at. at < length self.now) }
    {
        match &edge.moves_to {
            Some(object) => self.at(object.id),
            None => None,
        }
    }

    fn at(&self, id: ObjId) -> Option<usize>
        ensures { result ≡ made_at self.now id }
    {
        self.places.get(&id).copied()
    }

    fn make_for(&mut self, edge: &Edge, breaks: bool) -> Result<(), AllocError>
        ensures { OnOk result (self.new ≡ (if breaks then option_map_or (made_once self.old) edge.now.moves_to self.old else self.old)) }
    {
        if !breaks {
            return Ok(());
        }
        match &edge.moves_to {
            Some(object) => self.make(object),
            None => Ok(()),
        }
    }

    // Makes one more object, unless it was made before.
    fn make(&mut self, object: &Obj) -> Result<(), AllocError>
        ensures { OnOk result (self.new ≡ made_once self.old object.now) }
    {
        if self.at(object.id).is_some() {
            return Ok(());
        }
        self.add(object.clone()?)
    }

    fn add(&mut self, object: Obj) -> Result<(), AllocError>
        requires { made_at self.old object.id ≡ None }
        ensures { OnOk result (self.new ≡ self.old ++ object ∷ []) }
    {
        self.objects.reserve(1)?;
        self.places.insert(object.id, self.objects.len())?;
        self.objects.push(object).unwrap();
        Ok(())
    }
}

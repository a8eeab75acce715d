//! Objects with their edges.
ghost use Rattle.std.specs.Prelude.{◌≡◌};
ghost use Rattle.graph_parts.specs.Parts.{IsGraph};

use crate::object::Obj;
use std::marker::Model;

/// That one object needs another: the other has to be there first.
#[derive(Drop)]
pub struct Edge {
    /// The place of the object that needs the other, from 0.
    pub from: u32,
    /// The place of the object that it needs.
    pub to: u32,
    /// The default or the rule that this edge belongs to, where that can be made later than `from`; `None` for all other edges.
    pub moves_to: Option<Obj>,
    /// Whether `from` needs the other also without that default or rule, as a view the types of its columns. Where
    /// `moves_to` is `None` it says nothing.
    pub stays: bool,
}

/// The objects of a dump, and which of them need which. A contract sees the list of the objects and that of the edges.
#[derive(Drop)]
pub struct Graph {
    objects: Vec<Obj>,
    edges: Vec<Edge>,
}

impl Model for Graph {
    ghost use Rattle.graph_parts.specs.Parts.{Parts, IsGraph};

    ghost Value = { Parts };

    ghost view = { λ g. record { objects = g.objects.items; edges = g.edges.items } };

    ghost invariant = { λ g. IsGraph g.objects.items g.edges.items };
}

impl Graph {
    /// The graph of these objects and edges. Together they number fewer than 2^32, and each edge leads from one of the
    /// objects to another one. An object may be needed twice, and each list may be in any order. It takes no memory.
    pub fn new(objects: Vec<Obj>, edges: Vec<Edge>) -> Graph
        requires { IsGraph objects.items edges.items }
        ensures { result ≡ record { objects = objects.items; edges = edges.items } }
    {
        Graph { objects, edges }
    }

    /// The objects.
    pub fn objects(&self) -> &[Obj]
        ensures value { result.now ≡ self.now.objects }
        ensures graph { IsGraph result.now self.now.edges }
    {
        &self.objects
    }

    /// The edges.
    pub fn edges(&self) -> &[Edge]
        ensures value { result.now ≡ self.now.edges }
        ensures graph { IsGraph self.now.objects result.now }
    {
        &self.edges
    }
}

//! The objects of a dump, and which of them need which.
#![tactic(auto)]

mod graph;
mod object;

pub use graph::{Edge, Graph};
pub use object::{Obj, ObjId, ObjKind};

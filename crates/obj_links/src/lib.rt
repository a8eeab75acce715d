//! The objects that a selection chooses, and which of them depend on which.
#![tactic(auto)]

mod boundary_links;
mod chosen;
mod constraint_links;
mod depend_links;
mod graph;
mod links;
mod object_list;
mod relation_links;
mod type_links;

pub use graph::objects;

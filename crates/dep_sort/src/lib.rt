//! The order of a dump's objects.
#![tactic(auto)]

mod cut;
mod cut_graph;
mod cutting;
pub mod laws;
mod made;
mod ordering;
mod places;

pub use cut_graph::{final_places, loop_places};
pub use cutting::breaking;
pub use ordering::{OrderError, Ordered, order};
pub use places::{first_places, id_places};

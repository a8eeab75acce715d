//! Walks through graphs whose objects are numbered places.
#![tactic(auto)]

mod arcs;
mod components;
mod filling;
pub mod laws;
mod telling;

pub use arcs::Arcs;
pub use components::mark_components;
pub use filling::fill_order;
pub use telling::tell_cycle;

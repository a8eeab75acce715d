//! What types are at the ends of their chains of domains.
#![tactic(auto)]

mod all_ends;
mod bases;
mod ends;
mod enums;
mod jumps;
pub mod laws;

pub use all_ends::TypeEnds;

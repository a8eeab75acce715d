//! Keys of an oid and a number, found by their oids.
#![tactic(auto)]

mod groups;
pub mod laws;

pub use groups::Groups;

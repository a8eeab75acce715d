//! Cases of what a dump holds. These functions have no clauses beside that they are safe and end: what they write is compared
//! with answers from outside.
#![tactic(auto)]

mod answering;
mod scripts;

pub use answering::dumped;

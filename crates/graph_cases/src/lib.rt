//! Cases of what a dump chooses and in which order. These functions have no clauses beside that they are safe and end: what
//! they write is compared with answers from outside.
#![tactic(auto)]

mod labels;
mod options;
mod selecting;

pub use options::select_of;
pub use selecting::selected;

//! Laws of reading and writing statements.
#![tactic(auto)]

pub mod laws;

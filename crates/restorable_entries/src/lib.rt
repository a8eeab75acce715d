//! Laws of the entries of dumps, as a restore of their archive sees them.
#![tactic(auto)]

pub mod laws;

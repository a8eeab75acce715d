//! What is known of each entry of a dump, whatever is chosen.
#![tactic(auto)]

pub mod laws;

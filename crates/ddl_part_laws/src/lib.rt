//! The laws of the parts of the grammar.
#![tactic(auto)]

pub mod laws;

//! The laws of the grammar of the kinds of statement.
#![tactic(auto)]

pub mod laws;

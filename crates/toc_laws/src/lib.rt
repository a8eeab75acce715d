//! Laws of tables of contents: worked examples, and what the script of a dump reads as.
#![tactic(auto)]

pub mod laws;

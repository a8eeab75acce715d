//! Laws and worked examples alone: which fault of a table is its first, and what is wrong with small catalogues.
#![tactic(auto)]

pub mod laws;

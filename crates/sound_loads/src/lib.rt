//! What is loaded is sound: the keys and values that the rows of well-formed tables stand for are in order.
#![tactic(auto)]

pub mod laws;

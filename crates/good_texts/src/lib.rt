//! Texts that are good are read from rows: for each there is a text of a row that reads as it.
#![tactic(auto)]

pub mod laws;

//! Dumps of catalogues of schemas alone, as a case of the laws of all dumps.
#![tactic(auto)]

pub mod laws;

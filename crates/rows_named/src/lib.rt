//! Where the rows of tables stand in the catalogue by names: laws of `cat_naming`'s definitions.
#![tactic(auto)]

pub mod laws;

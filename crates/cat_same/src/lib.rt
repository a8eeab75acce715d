//! Catalogues compared by what they stand for by names.
#![tactic(auto)]

mod compare;
pub mod laws;

pub use compare::{Verdict, compare_maps, same};

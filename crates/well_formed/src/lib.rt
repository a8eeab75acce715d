//! Well-formed catalogues: each table's rows meet its conditions.
#![tactic(auto)]

mod check;
pub mod laws;

pub use check::WellFormed;

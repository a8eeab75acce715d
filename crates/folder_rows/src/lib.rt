//! The rows of an export folder's tables.
#![tactic(auto)]

pub mod laws;
mod reading;

pub use reading::read_rows;

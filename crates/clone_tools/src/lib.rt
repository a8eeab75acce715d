//! The program: pg_clone over the two tools that it is made of, and the other tools.
#![tactic(auto)]

mod clone;
mod first;
pub mod laws;
mod tools;

pub use tools::run_tools;

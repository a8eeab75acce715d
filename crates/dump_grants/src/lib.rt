//! The statements that give the grants on an object again.
#![tactic(auto)]

mod held;
mod items;
pub mod laws;
mod stmts;

pub use stmts::grants_text;

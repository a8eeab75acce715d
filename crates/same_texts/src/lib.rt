//! Whether two export folders hold the same texts in all files that reading takes.
#![tactic(auto)]

mod comparing;
pub mod laws;
mod pieces;

pub use comparing::{have_same_catalogue, hold_same_texts};

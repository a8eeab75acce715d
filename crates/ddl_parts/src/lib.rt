//! The parts of the grammar of statements: their definitions.
#![tactic(auto)]

mod fault;
mod pieces;
mod runs;
mod types;

pub use fault::{Halt, Parsed, ReadError};
pub use pieces::Piece;
pub use runs::{Bracket, Spot};
pub use types::TypeSpot;

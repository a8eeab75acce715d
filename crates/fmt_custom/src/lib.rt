//! Archives in the custom format.
#![tactic(auto)]

mod blocks;
mod fault;
pub mod laws;
mod pieces;
mod reader;
mod writer;

pub use pieces::Pieces;
pub use reader::CustomReader;
pub use writer::{CustomWriter, end_block, start_block, write_piece};

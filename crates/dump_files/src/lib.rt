//! The data files of a dump: whether they are there, and their rows, read piece by piece and spelled anew.
//!
//! `laws` says what holds of the definitions alone.
#![tactic(auto)]

mod file;
pub mod laws;
mod lines;
mod outlet;
mod reader;
mod row;
mod rows;
mod stop;

pub use file::{DataFile, look_for};
pub use outlet::{begin, flush, put, spill};
pub use reader::RowReader;
pub use rows::put_rows;
pub use stop::DumpStop;

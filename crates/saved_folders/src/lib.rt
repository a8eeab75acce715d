//! Whole export folders, written: a catalogue and the rows of its tables become the texts of a folder's files, which are
//! read once in memory and then written one after another.
#![tactic(auto)]

mod export;
pub mod laws;
mod reading;
mod tables;
mod writing;

pub use export::{ExportTexts, make_texts, write_texts};

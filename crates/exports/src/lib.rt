//! Export folders, read whole: the catalogue, and the rows of its tables.
#![tactic(auto)]

pub mod laws;
mod reading;

pub use reading::{Export, FolderTexts, read_export, read_formed, read_texts};

//! Archives in the directory format.
#![tactic(auto)]

mod fault;
mod laws;
mod reader;
mod writing;

pub use fault::DirFault;
pub use reader::{DirReader, rows_path, toc_path};
pub use writing::dir_toc;

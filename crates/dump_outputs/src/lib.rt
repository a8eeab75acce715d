//! Dumps in each format, put where they are asked for.
#![tactic(auto)]

mod form;
mod writing;

pub use form::DumpForm;
pub use writing::{put_whole, write_dump};

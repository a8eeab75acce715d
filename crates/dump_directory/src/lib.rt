//! Dumps in the directory format, written as they are made.
#![tactic(auto)]

mod directory;
mod whole;

pub use directory::directory_dump;

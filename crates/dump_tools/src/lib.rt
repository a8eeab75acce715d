//! The tools: what the words of a command line ask for, done over files and streams.
#![tactic(auto)]

mod dumps;
pub mod laws;
mod placing;
mod printing;
mod psql;
mod restoring;
mod scripts;
mod tools;

pub use dumps::{DumpWork, dump_work};
pub use tools::run_tools;

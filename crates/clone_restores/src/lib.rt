//! What a clone wrote, restored into another folder: a script is run on it, to its end, and of an archive all entries are
//! restored.
#![tactic(auto)]

mod archives;
mod lines;
mod restored;
mod running;
mod scripts;
mod written;

pub use written::restore_written;

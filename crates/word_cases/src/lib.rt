//! Cases of command lines and of patterns, for the program `trials`.
#![tactic(auto)]

mod hits;
mod lines;

pub use hits::pattern;
pub use lines::words;

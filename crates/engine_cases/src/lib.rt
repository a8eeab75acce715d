//! Answers to the cases of the engine: what a catalogue stands for by names, and what the engine makes of a script, each
//! written to a folder and read again.
#![tactic(auto)]

mod named;
mod running;
mod written;

pub use crate::named::name_texts;
pub use crate::running::{Shown, run_script};

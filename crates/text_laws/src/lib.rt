//! Laws of the texts that rows of a catalogue hold: what they say can be written.
#![tactic(auto)]

pub mod laws;

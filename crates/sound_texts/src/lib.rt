//! Which texts are good by the grammar of statements, so that every statement that is read leaves a catalogue in order.
#![tactic(auto)]

pub mod laws;

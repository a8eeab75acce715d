//! The engine by names: every statement carried out on a catalogue by names.
//!
//! A statement takes two steps. What it comes to, as a list of changes or the cause of its refusal, is a function of the
//! catalogue that changes nothing; its changes are then made, all or none.
#![tactic(auto)]

mod engine;
mod statements;

pub use copy_effects::{PrepareError, Prepared, prepare};
pub use engine::Engine;
pub use statements::changes_of;

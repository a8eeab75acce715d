//! What has oids of its own of what a catalogue by names says: what has none yet gets one, and then they are the ones that the
//! catalogue's rows need.
#![tactic(auto)]

mod laws;
mod number;
mod slots;

pub use laws::{checks_are_apart, labels_are_apart, objects_are_apart};
pub use number::number_all;

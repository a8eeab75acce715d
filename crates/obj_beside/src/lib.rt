//! What stands beside a catalogue, so that what its rows name is found without going through its tables.
#![tactic(auto)]

mod beside;
mod firsts;
mod keys;

pub use beside::Beside;
pub use firsts::add_first;

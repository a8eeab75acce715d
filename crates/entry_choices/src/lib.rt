//! Which entries of an archive a restore takes.
#![tactic(auto)]

mod all;
mod choosing;
mod kinds;
mod known;
mod laws;
mod options;
mod single;

pub use all::{wanted_marks, wanted_places};
pub use kinds::sets_up_session;
pub use laws::{worked_examples, worked_remarks};
pub use options::Options;
pub use single::wanted;

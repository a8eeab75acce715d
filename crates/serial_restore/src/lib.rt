//! A restore with one worker: the entries of a list carried out one after another on the engine.
#![tactic(auto)]

mod blocked;
mod entry;
mod laws;
mod serial;
mod some;
mod statement;
mod until;

pub use laws::foreign_keys_change_nothing;
pub use serial::{Report, restore_serial};
pub use until::restore_until;

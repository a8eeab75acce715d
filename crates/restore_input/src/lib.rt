//! What pg_restore reads of an archive before it restores anything: the entries that it takes, each with its rows.
#![tactic(auto)]

mod custom;
mod directory;
mod input;
pub mod laws;
mod taken;
mod texts;
mod whole;

pub use custom::custom_input;
pub use directory::folder_input;
pub use input::RestoreInput;
pub use whole::read_restore;

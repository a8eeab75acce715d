//! Laws over dumps in the directory format that are written as scripts, beside plain dumps.
#![tactic(auto)]

mod laws;

pub use laws::{dumps_to_folders_are_restored, folders_are_scripted};

//! The plain scripts of archives.
#![tactic(auto)]

mod custom;
mod directory;
mod entries;

pub use custom::{custom_rows, custom_script};
pub use directory::{directory_script, rows_within};
pub use entries::entry_at;

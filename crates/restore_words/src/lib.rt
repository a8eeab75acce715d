//! What the words of pg_restore ask of an archive.
#![tactic(auto)]

mod options;

pub use options::{archive_format, restore_options};

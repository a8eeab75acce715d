//! Laws of the dumps of folders: what they write can be restored, and pg_restore makes the plain dump of it.
#![tactic(auto)]

mod laws;

pub use laws::{dumps_of_folders_are_restorable, scripts_of_dumps_are_plain_dumps};

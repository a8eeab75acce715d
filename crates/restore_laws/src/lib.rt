//! Laws over what pg_restore writes without restoring.
#![tactic(auto)]

mod laws;

pub use laws::{
    absent_file_is_missing, entries_without_parts_may_go, scripts_are_of_entries,
    whole_scripts_are_plain, worked_examples,
};

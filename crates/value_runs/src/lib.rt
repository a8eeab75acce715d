//! Runs of statements from the export of an empty cluster on, with the keys and their values that are there at the end.
#![tactic(auto)]

mod runs;

pub use runs::{
    first_runs_leave_values, runs_of_keys_and_rights_leave_values, second_runs_leave_values,
    third_runs_leave_values,
};

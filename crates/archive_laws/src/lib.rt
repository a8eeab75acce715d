//! Laws over archives that are written as scripts, beside plain dumps.
#![tactic(auto)]

mod laws;

pub use laws::{
    archives_are_scripted, dumps_at_paths_are_restored, dumps_to_files_are_restored,
    dumps_to_output_are_restored,
};

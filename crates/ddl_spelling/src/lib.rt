//! How statements are spelled: its definitions.
#![tactic(auto)]

mod sequences;

pub use sequences::{is_usual_max, is_usual_min, usual_max, usual_min};

//! Rows of an opening that are kept beside those that stand for a catalogue by names: the columns of views, and dependencies.
#![tactic(auto)]

mod keeping;

pub use keeping::{keep_columns, kept_depends};

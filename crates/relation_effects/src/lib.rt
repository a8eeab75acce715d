//! What statements that make tables, sequences and views come to: a list of changes, or the cause of a refusal.
#![tactic(auto)]

mod relations;
mod tables;

pub use relations::{
    LastValue, create_sequence, create_view, owned_by, replace_view, set_default, set_value,
};
pub use tables::create_table;

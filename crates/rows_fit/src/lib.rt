//! Rows tried against a table: the rows that a COPY text gives for its columns, and whether rows meet its unique keys
//! and its foreign keys.
#![tactic(auto)]

mod copying;
mod fault;
mod fields;
mod key_order;
mod keys;
pub mod laws;
mod names;
mod order;

pub use copying::{copied_rows, tried_rows};
pub use key_order::by_name;
pub use keys::{
    ForeignKey, UniqueKey, duplicate_cause, keys_cause, orphan_cause, parent_cause, unique_cause,
};
pub use names::{all_columns, are_distinct, columns_there};

//! What statements about the constraints and indexes of tables come to: a list of changes, or the cause of a refusal.
#![tactic(auto)]

mod checks;
mod condition;
mod foreign;
mod indexes;
mod keys;
mod paths;
mod rows;

pub use checks::add_check;
pub use condition::entries_of;
pub use foreign::{NewForeign, add_foreign};
pub use indexes::{NewIndex, create_index, create_unique_index};
pub use keys::{NewKey, add_primary, add_unique};
pub use rows::rows_of;

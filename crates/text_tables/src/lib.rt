//! The conditions of the six system tables whose rows hold texts that agree with other rows.
#![tactic(auto)]

mod agreeing;
mod columns;
mod indexes;
mod sequences;
mod types;
mod views;

pub use agreeing::{are_met, is_met, is_path, is_type_named};
pub use columns::{Columns, Defaults};
pub use indexes::{Indexes, are_columns, is_index_path};
pub use sequences::Sequences;
pub use types::Types;
pub use views::Views;

//! The numbers of the columns of tables: those that they had, where these rise and leave room, and else the next ones.
#![tactic(auto)]

mod laws;
mod let_go;
mod numbers;
mod rule;

pub use laws::{numbers_are_kept, numbers_rise};
pub use numbers::Numbers;
pub use rule::number_columns;

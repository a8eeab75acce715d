//! Texts that hold the rows of tables.
#![tactic(auto)]

mod fault;
pub mod laws;
mod tables;
mod values;

pub use fault::{CheckValuesError, ValuesFault};
pub use tables::table_oids;
pub use values::check_values;

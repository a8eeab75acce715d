//! The rows of a table's data file: a text in PostgreSQL's COPY text format, for a table with a known number of
//! columns.
//!
//! A line spells a row of nullable texts, at least one. The rows end at the line `\.` or at the text's end, and count
//! from 1. `laws` says what holds of the definitions alone. See <https://www.postgresql.org/docs/16/sql-copy.html>,
//! "Text Format".
#![tactic(auto)]

mod check;
mod fault;
pub mod laws;
mod lines;
mod reading;
mod same;

pub use check::check_rows;
pub use fault::{CheckRowsError, DataFault, RowsFault};
pub use lines::{read_line, split_line};
pub use reading::read_rows;
pub use same::same_rows;

//! Rows of COPY text whose fields stand in their line as they are, read without copying them.
//!
//! Most lines have no escape but that of null. Their fields are slices of the line; any other line is left to
//! `copy_text::read_row`. See <https://www.postgresql.org/docs/16/sql-copy.html>, "Text Format".
#![tactic(auto)]

mod check;
mod counted;
mod plain;

pub use check::check_rows;
pub use plain::PlainRow;

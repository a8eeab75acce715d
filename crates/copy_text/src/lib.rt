//! PostgreSQL's COPY text format: rows of nullable texts, read and written exactly.
//!
//! The format is that of https://www.postgresql.org/docs/16/sql-copy.html, "Text Format", with a tab between
//! fields. A raw carriage return and a backslash before a newline, which PostgreSQL takes in some files, are
//! refused. `laws` says what holds of the definitions alone.
#![tactic(auto)]

mod escape;
mod fault;
pub mod laws;
mod line;
mod name;
mod reading;
mod row;
mod text;
mod writing;

pub use fault::{CopyFault, ReadRowError};
pub use line::{Line, next_line};
pub use name::Name;
pub use reading::read_row;
pub use row::Row;
pub use text::Text;
pub use writing::write_row;

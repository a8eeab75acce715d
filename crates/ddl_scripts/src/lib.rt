//! What a text of statements says: its statements, the rows of a COPY and lines that begin with a backslash, and its
//! first fault.
#![tactic(auto)]

mod copy_rows;
pub mod examples;
mod fault;
pub mod laws;
mod located;
mod meta_lines;

pub use copy_rows::{Rows, RowsError, rows_behind};
pub use fault::{DdlFault, ReadStmtsError};
pub use located::Located;
pub use meta_lines::MetaError;

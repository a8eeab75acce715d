//! The fields of a text without an escape, one after another.
//!
//! Where fields end is looked up for 64 bytes at a time, so that a field costs some bits and no search of its own. See
//! <https://www.postgresql.org/docs/16/sql-copy.html>, "Text Format".
#![tactic(auto)]

mod ahead;
mod block;
mod clear;
mod lines;

pub use ahead::TextAhead;
pub use clear::is_clear_text;
pub use lines::line_piece;

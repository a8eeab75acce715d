//! Fields of a line by their place, found without reading the rest of the line.
//!
//! Most lines of COPY text are UTF-8 without an escape, and read as their pieces. Whether a text's lines are is told without
//! cutting them. See <https://www.postgresql.org/docs/16/sql-copy.html>, "Text Format".
#![tactic(auto)]

mod clear;
mod fields;
mod walk;

pub use clear::{has_text_lines, is_clear};
pub use fields::{line_field, split_piece};
pub use walk::{behind_line, is_clear_text, split_field};

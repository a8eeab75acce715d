//! Statements with their places.
use cat_model::Stmt;

/// A statement of a text: its bytes are those from `start` up to `end`, counted from 0.
///
/// Its semicolon is among them, and so are the rows of a COPY with the line `\.` that ends them. A line that begins with
/// a backslash ends before its line feed.
#[derive(Drop)]
pub struct Located {
    /// What it says.
    pub stmt: Stmt,
    /// The place of its first byte.
    pub start: usize,
    /// The place behind its last byte.
    pub end: usize,
}

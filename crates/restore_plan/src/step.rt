//! Statements of entries.
use cat_model::Stmt;

/// A statement of an entry.
#[derive(Drop)]
pub struct Step {
    /// The statement.
    pub statement: Stmt,
    /// Whether it is the entry's owner statement, which gives its object to a role.
    pub is_owner: bool,
}

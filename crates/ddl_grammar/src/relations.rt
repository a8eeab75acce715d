//! What the definition of an index says.
use cat_model::QName;
use copy_text::{Name, Text};

/// What the definition of an index says.
#[derive(Drop)]
pub struct Index {
    /// Its name.
    pub name: Name,
    /// The path of its table.
    pub table: QName,
    /// Its method, as `btree`.
    pub method: Name,
    /// What follows the method, from its bracket on.
    pub rest: Text,
}

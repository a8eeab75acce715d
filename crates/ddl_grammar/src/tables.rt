//! What a list of a table's columns and checks has.
use cat_model::{CheckDef, ColumnDef};

/// Where a list of a table's columns and checks stands.
#[derive(Clone, Copy)]
pub enum Spot {
    /// Behind its opening bracket.
    Opening,
    /// Behind a column.
    BehindColumn,
    /// Behind a check.
    BehindCheck,
}

/// What a list of a table's columns and checks has.
#[derive(Drop)]
pub enum TableElement {
    /// A column.
    Column(ColumnDef),
    /// A check.
    Check(CheckDef),
}

//! Why a statement is refused.
use crate::key::Key;
use copy_text::{CopyFault, Name};

/// Why a statement is refused. Rows, columns and fields count from 1; a column is its number among the
/// table's columns, and a row is a row of the text, but in `Duplicate` a row of the table as it would be.
#[derive(Drop)]
pub enum Cause {
    /// What would be made is there already.
    Exists(Key),
    /// What the statement needs isn't there, or is of another kind.
    Absent(Key),
    /// A field is no value of its column's type.
    BadValue {
        /// The column.
        column: u64,
        /// The row.
        row: u64,
    },
    /// A field is null where its column can't be.
    NullValue {
        /// The column.
        column: u64,
        /// The row.
        row: u64,
    },
    /// Two rows have one key for a primary key, a unique constraint or a unique index.
    Duplicate {
        /// The constraint or index.
        name: Name,
        /// The least row with the second one's key.
        first: u64,
        /// The least row whose key an earlier row has.
        second: u64,
    },
    /// A row has no parent for a foreign key.
    NoParent {
        /// The foreign key.
        name: Name,
        /// The least such row.
        row: u64,
    },
    /// The columns that the statement names aren't those that it needs.
    WrongColumns,
    /// The parent of a foreign key has no key on those columns.
    KeyMissing(Key),
    /// A number isn't in the range that it must be in.
    OutOfRange,
    /// A row has another number of fields than the table has columns.
    Fields {
        /// The row.
        row: u64,
        /// Its number of fields.
        found: u64,
    },
    /// A row of COPY text can't be read.
    BadRow {
        /// The row.
        row: u64,
        /// Why.
        fault: CopyFault,
    },
}

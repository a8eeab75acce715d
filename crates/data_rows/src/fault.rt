//! Why a text doesn't hold the rows of a table.
ghost use Rattle.std.specs.Prelude.{◌≡◌};
ghost use Rattle.data_rows.specs.declared.fault.CheckRowsError.TheVariants.{Memory};

use copy_text::CopyFault;
use std::alloc::AllocError;
use thiserror::Error;

/// What is wrong with a row of a table's data. Where both are wrong, `BadRow` counts. See
/// <https://www.postgresql.org/docs/16/sql-copy.html>.
#[derive(Debug, Drop, Error)]
pub enum DataFault {
    /// The line is no COPY text; this is its first fault.
    #[error("{0}")]
    BadRow(CopyFault),
    /// The row has this number of fields, and the table another number of columns.
    #[error("{0} fields")]
    Fields(u64),
}

/// The first row of a text that the table can't hold. See <https://www.postgresql.org/docs/16/sql-copy.html>.
#[derive(Debug, Drop, Error)]
#[error("row {row}: {fault}")]
pub struct RowsFault {
    /// The row, counted from 1.
    pub row: u64,
    /// What is wrong with it.
    pub fault: DataFault,
}

/// Why rows could not be counted. See <https://www.postgresql.org/docs/16/sql-copy.html>.
#[derive(Debug, Drop, Error)]
pub enum CheckRowsError {
    /// The text doesn't hold rows of the table; this is the first that fails.
    #[error("{0}")]
    Fault(RowsFault),
    /// Memory ran out.
    #[error("out of memory")]
    Memory,
}

impl From<AllocError> for CheckRowsError {
    ghost from_gives = { λ _ e. e ≡ Memory };

    fn from(_e: AllocError) -> CheckRowsError {
        CheckRowsError::Memory
    }
}

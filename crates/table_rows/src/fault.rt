//! Why texts don't hold the rows of their tables.
ghost use Rattle.std.specs.Prelude.{◌≡◌};
ghost use Rattle.table_rows.specs.declared.fault.CheckValuesError.TheVariants as check_errors;

use data_rows::DataFault;
use std::alloc::AllocError;
use thiserror::Error;

/// The first row of the first text that its table can't hold. See
/// <https://www.postgresql.org/docs/16/sql-copy.html>.
#[derive(Debug, Drop, Error)]
#[error("table {table}, row {row}: {fault}")]
pub struct ValuesFault {
    /// The table's oid.
    pub table: u32,
    /// The row of the text, counted from 1.
    pub row: u64,
    /// What is wrong with it.
    pub fault: DataFault,
}

/// Why a check of texts ended.
#[derive(Debug, Drop, Error)]
pub enum CheckValuesError {
    /// A text doesn't hold rows of its table; this is the first that fails.
    #[error("{0}")]
    Fault(ValuesFault),
    /// Memory ran out.
    #[error("out of memory")]
    Memory,
}

impl From<AllocError> for CheckValuesError {
    ghost from_gives = { λ _ e. e ≡ check_errors.Memory };

    fn from(_error: AllocError) -> CheckValuesError {
        CheckValuesError::Memory
    }
}

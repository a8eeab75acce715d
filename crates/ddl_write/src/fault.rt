//! Why a statement was not written.
ghost use Rattle.std.specs.Prelude.{◌≡◌};
ghost use Rattle.ddl_write.specs.declared.fault.WriteStmtError.TheVariants.{Memory};

use std::alloc::{AllocError, AllocFailed};
use thiserror::Error;

/// Why a statement was not written.
#[derive(Debug, Drop, Error)]
pub enum WriteStmtError {
    /// Memory ran out.
    #[error("out of memory")]
    Memory,
}

impl From<AllocError> for WriteStmtError {
    ghost from_gives = { λ _ error. error ≡ Memory };

    fn from(_error: AllocError) -> WriteStmtError {
        WriteStmtError::Memory
    }
}

impl<T: Drop> From<AllocFailed<T>> for WriteStmtError {
    ghost from_gives = { λ _ error. error ≡ Memory };

    fn from(_error: AllocFailed<T>) -> WriteStmtError {
        WriteStmtError::Memory
    }
}

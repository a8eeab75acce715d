//! Why a line that begins with a backslash says nothing.
ghost use Rattle.std.specs.Prelude.{◌≡◌, ◌<◌};
ghost use Rattle.ddl_scripts.specs.declared.meta_lines.MetaError.TheVariants as errors;

use std::alloc::{AllocError, AllocFailed};
use thiserror::Error;

/// Why a line says nothing.
#[derive(Debug, Drop, Error)]
pub enum MetaError {
    /// No such line is known, and the place is 0; or what stands for its name, at this place in the line, is no name.
    #[error("the line is unknown at byte {0}")]
    Unknown(usize),
    /// Its name, at this place in the line, has more than 63 bytes.
    #[error("the name at byte {0} of the line is too long")]
    LongName(usize),
    /// Memory ran out.
    #[error("out of memory")]
    Memory,
}

impl From<AllocError> for MetaError {
    ghost from_gives = { λ _ error. error ≡ errors.Memory };

    fn from(_error: AllocError) -> MetaError {
        MetaError::Memory
    }
}

impl<T: Drop> From<AllocFailed<T>> for MetaError {
    ghost from_gives = { λ _ error. error ≡ errors.Memory };

    fn from(_error: AllocFailed<T>) -> MetaError {
        MetaError::Memory
    }
}

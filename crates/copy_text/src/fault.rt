//! Why a line has no row.
ghost use Rattle.std.specs.Prelude.{◌≡◌};
ghost use Rattle.copy_text.specs.declared.fault.ReadRowError.TheVariants.{Memory};

use std::alloc::{AllocError, AllocFailed};
use thiserror::Error;

/// The first fault of a line from the left. Places count bytes from 0; at one place the order is as listed.
#[derive(Clone, Copy, Debug, PartialEq, Eq, Error)]
pub enum CopyFault {
    /// A raw carriage return, at its place.
    #[error("raw carriage return at byte {0}")]
    RawReturn(usize),
    /// A field that stands for bytes which aren't UTF-8, at the field's start.
    #[error("field at byte {0} is not UTF-8")]
    BadUtf8(usize),
    /// A backslash at the end of the line that escapes nothing, at its place.
    #[error("backslash at byte {0} escapes nothing")]
    EndsInBackslash(usize),
}

/// Why a row could not be read: the line has none, or memory ran out.
#[derive(Debug, Drop, Error)]
pub enum ReadRowError {
    /// The line has no row.
    #[error("{0}")]
    Fault(CopyFault),
    /// Memory ran out.
    #[error("out of memory")]
    Memory,
}

impl From<AllocError> for ReadRowError {
    ghost from_gives = { λ _ e. e ≡ Memory };

    fn from(_e: AllocError) -> ReadRowError {
        ReadRowError::Memory
    }
}

impl<T: Drop> From<AllocFailed<T>> for ReadRowError {
    ghost from_gives = { λ _ e. e ≡ Memory };

    fn from(_e: AllocFailed<T>) -> ReadRowError {
        ReadRowError::Memory
    }
}

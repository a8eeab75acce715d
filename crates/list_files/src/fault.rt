//! Why a list file has no reading.
ghost use Rattle.std.specs.Prelude.{◌≡◌};
ghost use Rattle.list_files.specs.declared.fault.EditError.TheVariants as errors;

use std::alloc::{AllocError, AllocFailed};
use thiserror::Error;

/// The first line of a list file that names no entry. Lines count from 1.
#[derive(Debug, Clone, Copy, Error)]
pub enum ListFault {
    /// What stands before the line's first semicolon isn't a number.
    #[error("line {0} names no number")]
    NotANumber(u64),
    /// No entry has the line's number.
    #[error("line {0} names an unknown id")]
    UnknownId(u64),
}

/// Why a list file was not read.
#[derive(Debug, Clone, Copy, Error)]
pub enum EditError {
    /// A line names no entry.
    #[error("{0}")]
    Fault(ListFault),
    /// Memory ran out.
    #[error("out of memory")]
    Memory,
}

impl From<AllocError> for EditError {
    ghost from_gives = { λ _ error. error ≡ errors.Memory };

    fn from(_error: AllocError) -> EditError {
        EditError::Memory
    }
}

impl<T: Drop> From<AllocFailed<T>> for EditError {
    ghost from_gives = { λ _ error. error ≡ errors.Memory };

    fn from(_error: AllocFailed<T>) -> EditError {
        EditError::Memory
    }
}

impl From<ListFault> for EditError {
    ghost from_gives = { λ fault error. error ≡ errors.Fault fault };

    fn from(fault: ListFault) -> EditError {
        EditError::Fault(fault)
    }
}

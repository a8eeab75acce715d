//! Why a field can't be read.
ghost use Rattle.std.specs.Prelude.{◌≡◌};
ghost use Rattle.toc_parts.specs.declared.fault.FieldError.TheVariants.{Fault, Memory};

use std::alloc::{AllocError, AllocFailed};
use thiserror::Error;

/// What is wrong with the first field that can't be read.
#[derive(Clone, Copy, Debug, Error)]
pub enum FieldFault {
    /// The bytes end within the field.
    #[error("the bytes end within a field")]
    Short,
    /// A string whose length is below -1, or whose bytes aren't UTF-8.
    #[error("no string, {left} bytes before the end")]
    BadString {
        /// The number of bytes from the first one of the string to the end.
        left: usize,
    },
}

/// Why a field that takes memory could not be read.
#[derive(Debug, Drop, Error)]
pub enum FieldError {
    /// The field is at fault.
    #[error("{0}")]
    Fault(FieldFault),
    /// Memory ran out.
    #[error("out of memory")]
    Memory,
}

impl From<FieldFault> for FieldError {
    ghost from_gives = { λ fault error. error ≡ Fault fault };

    fn from(fault: FieldFault) -> FieldError {
        FieldError::Fault(fault)
    }
}

impl From<AllocError> for FieldError {
    ghost from_gives = { λ _ error. error ≡ Memory };

    fn from(_error: AllocError) -> FieldError {
        FieldError::Memory
    }
}

impl<T: Drop> From<AllocFailed<T>> for FieldError {
    ghost from_gives = { λ _ error. error ≡ Memory };

    fn from(_error: AllocFailed<T>) -> FieldError {
        FieldError::Memory
    }
}

//! Why a text has no statements.
ghost use Rattle.std.specs.Prelude.{◌≡◌};
ghost use Rattle.ddl_scripts.specs.Faults.{fault_place};
ghost use Rattle.ddl_scripts.specs.declared.fault.ReadStmtsError.TheVariants as errors;

use sql_lex::LexFault;
use std::alloc::{AllocError, AllocFailed};
use thiserror::Error;

/// Why a text doesn't read as statements. Places count bytes from 0, and the least place is told.
#[derive(Clone, Copy, Debug, Error)]
pub enum DdlFault {
    /// The text has no tokens from here on.
    #[error("{0}")]
    Lex(LexFault),
    /// No statement goes on with the token that begins here, no rows of a COPY begin with this byte, the line with a
    /// backslash that begins here isn't known, or what stands here for the name of such a line is none.
    #[error("no statement goes on at byte {0}")]
    Unknown(usize),
    /// The name that begins here has more than 63 bytes, or one in the path whose literal begins here has.
    #[error("the name at byte {0} is too long")]
    LongName(usize),
    /// The text ends, at this place, within a statement.
    #[error("a statement doesn't end before the text does, at byte {0}")]
    Incomplete(usize),
}

impl DdlFault {
    /// The place of the fault, counted in bytes from 0.
    pub fn place(self) -> usize
        ensures { result ≡ fault_place self }
    {
        match self {
            DdlFault::Lex(LexFault::Unclosed(at) | LexFault::BadByte(at))
            | DdlFault::Unknown(at)
            | DdlFault::LongName(at)
            | DdlFault::Incomplete(at) => at,
        }
    }
}

/// Why statements could not be read.
#[derive(Debug, Drop, Error)]
pub enum ReadStmtsError {
    /// The text has a fault.
    #[error("{0}")]
    Fault(DdlFault),
    /// Memory ran out.
    #[error("out of memory")]
    Memory,
}

impl From<AllocError> for ReadStmtsError {
    ghost from_gives = { λ _ error. error ≡ errors.Memory };

    fn from(_error: AllocError) -> ReadStmtsError {
        ReadStmtsError::Memory
    }
}

impl<T: Drop> From<AllocFailed<T>> for ReadStmtsError {
    ghost from_gives = { λ _ error. error ≡ errors.Memory };

    fn from(_error: AllocFailed<T>) -> ReadStmtsError {
        ReadStmtsError::Memory
    }
}

impl From<DdlFault> for ReadStmtsError {
    ghost from_gives = { λ fault error. error ≡ errors.Fault fault };

    fn from(fault: DdlFault) -> ReadStmtsError {
        ReadStmtsError::Fault(fault)
    }
}

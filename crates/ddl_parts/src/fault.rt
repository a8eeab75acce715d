//! Where reading stops.
ghost use Rattle.std.specs.Prelude.{◌≡◌};
ghost use Rattle.ddl_parts.specs.declared.fault.ReadError.TheVariants.{Halted, Memory};

use std::alloc::{AllocError, AllocFailed};

/// The first token with which nothing goes on.
#[derive(Clone, Copy)]
pub struct Halt {
    /// Whether it is a name but for its length.
    pub long: bool,
    /// Its place among the tokens, which may be behind the last.
    pub at: usize,
}

/// Why tokens could not be read.
#[derive(Drop)]
pub enum ReadError {
    /// Nothing goes on with a token.
    Halted(Halt),
    /// Memory ran out.
    Memory,
}

/// A value and the place behind its tokens, or why there is none.
pub type Parsed<T> = Result<(T, usize), ReadError>;

impl From<AllocError> for ReadError {
    ghost from_gives = { λ _ error. error ≡ Memory };

    fn from(_error: AllocError) -> ReadError {
        ReadError::Memory
    }
}

impl<T: Drop> From<AllocFailed<T>> for ReadError {
    ghost from_gives = { λ _ error. error ≡ Memory };

    fn from(_error: AllocFailed<T>) -> ReadError {
        ReadError::Memory
    }
}

impl From<Halt> for ReadError {
    ghost from_gives = { λ halt error. error ≡ Halted halt };

    fn from(halt: Halt) -> ReadError {
        ReadError::Halted(halt)
    }
}

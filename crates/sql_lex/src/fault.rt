//! Why a text has no tokens.

ghost use Rattle.std.specs.Prelude.{◌≡◌};
ghost use Rattle.sql_lex.specs.declared.fault.TokensError.TheVariants.{Lex, Memory};

use std::alloc::{AllocError, AllocFailed};
use thiserror::Error;

/// What is wrong at a place of a text. Places count bytes from 0.
#[derive(Clone, Copy, Debug, Error)]
pub enum LexFault {
    /// The quotes or the comment that open here are never closed.
    #[error("what begins at byte {0} has no end")]
    Unclosed(usize),
    /// No token begins with this byte, or the token or comment that begins here isn't UTF-8.
    #[error("no token begins at byte {0}")]
    BadByte(usize),
}

/// Why the tokens of a text could not be listed.
#[derive(Debug, Drop, Error)]
pub enum TokensError {
    /// The text has a fault.
    #[error("{0}")]
    Lex(LexFault),
    /// There was no memory for the list.
    #[error("out of memory")]
    Memory,
}

impl From<AllocError> for TokensError {
    ghost from_gives = { λ _ e. e ≡ Memory };

    fn from(_e: AllocError) -> TokensError {
        TokensError::Memory
    }
}

impl<T: Drop> From<AllocFailed<T>> for TokensError {
    ghost from_gives = { λ _ e. e ≡ Memory };

    fn from(_e: AllocFailed<T>) -> TokensError {
        TokensError::Memory
    }
}

impl From<LexFault> for TokensError {
    ghost from_gives = { λ fault e. e ≡ Lex fault };

    fn from(fault: LexFault) -> TokensError {
        TokensError::Lex(fault)
    }
}

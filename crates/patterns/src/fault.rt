//! Why a text is no pattern.
ghost use Rattle.std.specs.Prelude.{◌≡◌};
ghost use Rattle.patterns.specs.declared.fault.PatternReadError.TheVariants.{Fault, Memory};

use std::alloc::AllocError;
use thiserror::Error;

/// What is wrong with the text of a pattern. Places count bytes from 0.
#[derive(Clone, Copy, Debug, PartialEq, Eq, Error)]
pub enum PatternFault {
    /// The quotes that open here are never closed.
    #[error("the quotes at byte {0} have no end")]
    Unclosed(usize),
    /// The second dot outside quotes stands here.
    #[error("a second dot stands at byte {0}")]
    TooManyDots(usize),
    /// The text, or a part beside its dot, has no character but quotes.
    #[error("a part is empty")]
    Empty,
}

/// Why a pattern could not be read.
#[derive(Debug, Drop, Error)]
pub enum PatternReadError {
    /// The text is no pattern.
    #[error("{0}")]
    Fault(PatternFault),
    /// There was no memory for the pattern.
    #[error("out of memory")]
    Memory,
}

impl From<AllocError> for PatternReadError {
    ghost from_gives = { λ _ e. e ≡ Memory };

    fn from(_e: AllocError) -> PatternReadError {
        PatternReadError::Memory
    }
}

impl From<PatternFault> for PatternReadError {
    ghost from_gives = { λ fault e. e ≡ Fault fault };

    fn from(fault: PatternFault) -> PatternReadError {
        PatternReadError::Fault(fault)
    }
}

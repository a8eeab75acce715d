//! Why a list of words has no reading.
ghost use Rattle.std.specs.Prelude.{◌≡◌};
ghost use Rattle.command_line.specs.declared.usage.ReadWordsError.TheVariants.{Usage, Memory};

use std::alloc::AllocError;
use thiserror::Error;

/// What is wrong with a word.
#[derive(Clone, Copy, Debug, PartialEq, Eq)]
pub enum UsageKind {
    /// There are no words.
    NoCommand,
    /// The first word is no tool.
    UnknownCommand,
    /// An option or a value that the program leaves out.
    OutOfProfile,
    /// Any other letter or long name that the tool lacks.
    UnknownOption,
    /// The words end before a value.
    MissingValue,
    /// The option doesn't take this value, or takes none.
    BadValue,
    /// One word too many that is no option.
    ExtraWord,
    /// The option doesn't go with an earlier one, or with what it reads.
    Excluded,
    /// An option or a word that is needed isn't there.
    MissingOption,
}

/// The first word that fails, and why. Words count from 0, the tool's own; where something is missing, it is the number
/// of words.
#[derive(Clone, Copy, Debug, PartialEq, Eq, Error)]
#[error("word {word}: {kind:?}")]
pub struct UsageFault {
    /// The word.
    pub word: usize,
    /// Why it fails.
    pub kind: UsageKind,
}

/// Why words could not be read.
#[derive(Debug, Drop, Error)]
pub enum ReadWordsError {
    /// The words have no reading.
    #[error("{0}")]
    Usage(UsageFault),
    /// There was no memory for what they ask for.
    #[error("out of memory")]
    Memory,
}

impl From<AllocError> for ReadWordsError {
    ghost from_gives = { λ _ e. e ≡ Memory };

    fn from(_e: AllocError) -> ReadWordsError {
        ReadWordsError::Memory
    }
}

impl From<UsageFault> for ReadWordsError {
    ghost from_gives = { λ fault e. e ≡ Usage fault };

    fn from(fault: UsageFault) -> ReadWordsError {
        ReadWordsError::Usage(fault)
    }
}

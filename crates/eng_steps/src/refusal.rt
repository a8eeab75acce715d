//! Why a statement isn't carried out.
ghost use Rattle.std.specs.Prelude.{◌≡◌};
ghost use Rattle.eng_steps.specs.declared.refusal.ApplyError.TheVariants as error;

use cat_model::Cause;
use std::alloc::{AllocError, AllocFailed};

/// Why a statement isn't carried out.
#[derive(Drop)]
pub enum ApplyError {
    /// It is refused.
    Refused(Cause),
    /// Memory ran out.
    Memory,
}

impl From<AllocError> for ApplyError {
    ghost from_gives = { λ _ e. e ≡ error.Memory };

    fn from(_e: AllocError) -> ApplyError {
        ApplyError::Memory
    }
}

impl<T: Drop> From<AllocFailed<T>> for ApplyError {
    ghost from_gives = { λ _ e. e ≡ error.Memory };

    fn from(_e: AllocFailed<T>) -> ApplyError {
        ApplyError::Memory
    }
}

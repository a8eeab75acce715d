//! Why entries can't be restored.
ghost use Rattle.std.specs.Prelude.{◌≡◌};
ghost use Rattle.restore_steps.specs.declared.fault.PlanError.TheVariants as error;

use cat_model::What;
use ddl_read::DdlFault;
use std::alloc::{AllocError, AllocFailed};

/// Why an entry can't be restored.
#[derive(Drop)]
pub enum PlanFault {
    /// The texts of the entry with this dump id don't read as statements. The place counts in its definition, or in its
    /// COPY statement followed by its rows.
    BadDefn(u32, DdlFault),
    /// The entry with this dump id is left out.
    OutOfProfile(u32, What),
}

/// Why no plan is made.
#[derive(Drop)]
pub enum PlanError {
    /// An entry can't be restored.
    Fault(PlanFault),
    /// Memory ran out.
    Memory,
}

impl From<AllocError> for PlanError {
    ghost from_gives = { λ _ e. e ≡ error.Memory };

    fn from(_e: AllocError) -> PlanError {
        PlanError::Memory
    }
}

impl<T: Drop> From<AllocFailed<T>> for PlanError {
    ghost from_gives = { λ _ e. e ≡ error.Memory };

    fn from(_e: AllocFailed<T>) -> PlanError {
        PlanError::Memory
    }
}

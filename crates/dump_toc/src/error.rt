//! Why there is no table of contents.
ghost use Rattle.std.specs.Prelude.{◌≡◌};
ghost use Rattle.dump_toc.specs.declared.error.TocError.TheVariants as errors;

use graph_parts::ObjId;
use obj_graph::SelectFault;
use std::alloc::{AllocError, AllocFailed};
use thiserror::Error;

/// Why there is no table of contents.
#[derive(Debug, Drop, Error)]
pub enum TocError {
    /// A pattern of what is taken is refused, since it hits nothing.
    #[error("no match for a pattern")]
    NoMatch(SelectFault),
    /// Objects need each other in a loop that nothing breaks: their ids along it, from the least by class and oid that lies
    /// on one back to itself.
    #[error("objects need each other in a loop")]
    Loop(Vec<ObjId>),
    /// There would be more than 200,000 entries; their number.
    #[error("{0} entries")]
    TooMany(u64),
    /// Memory ran out.
    #[error("out of memory")]
    Memory,
}

impl From<AllocError> for TocError {
    ghost from_gives = { λ _ error. error ≡ errors.Memory };

    fn from(_error: AllocError) -> TocError {
        TocError::Memory
    }
}

impl<T: Drop> From<AllocFailed<T>> for TocError {
    ghost from_gives = { λ _ error. error ≡ errors.Memory };

    fn from(_error: AllocFailed<T>) -> TocError {
        TocError::Memory
    }
}

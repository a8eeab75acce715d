//! Why a directory archive can't be read.
ghost use Rattle.std.specs.Prelude.{◌≡◌};
ghost use Rattle.fmt_directory.specs.declared.fault.DirFault.TheVariants as faults;

use copy_text::Text;
use std::alloc::{AllocError, AllocFailed};
use thiserror::Error;
use toc_layout::ArchiveFault;

/// Why a directory archive, or the rows of one of its entries, could not be read.
#[derive(Debug, Drop, Error)]
pub enum DirFault {
    /// A read failed.
    #[error("could not read")]
    Failed,
    /// A file is absent; its whole path.
    #[error("missing file {path}", path = .0.as_str())]
    Missing(Text),
    /// A file has more than 268,435,456 bytes; the number is that limit and one more.
    #[error("a file of {0} bytes or more")]
    TooLarge(u64),
    /// `toc.dat` is at fault.
    #[error("{0}")]
    Archive(ArchiveFault),
    /// Memory ran out.
    #[error("out of memory")]
    Memory,
}

impl From<AllocError> for DirFault {
    ghost from_gives = { λ _ fault. fault ≡ faults.Memory };

    fn from(_error: AllocError) -> DirFault {
        DirFault::Memory
    }
}

impl<T: Drop> From<AllocFailed<T>> for DirFault {
    ghost from_gives = { λ _ fault. fault ≡ faults.Memory };

    fn from(_error: AllocFailed<T>) -> DirFault {
        DirFault::Memory
    }
}

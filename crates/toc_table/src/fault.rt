//! Why a table of contents can't be read.
ghost use Rattle.std.specs.Prelude.{◌≡◌};
ghost use Rattle.toc_table.specs.declared.fault.TocStop.TheVariants as stops;

use std::alloc::{AllocError, AllocFailed};
use toc_layout::{ArchiveFault, EntryHalt};

/// What is wrong with a table of contents; places are told by the bytes that are left.
#[derive(Clone, Copy)]
pub enum TocHalt {
    /// The number of entries, or an entry, is at fault.
    Entry(EntryHalt),
    /// More entries than 200,000; their number.
    TooMany(u64),
    /// A dump id that an earlier entry has.
    RepeatedId(u32),
}

impl TocHalt {
    ghost use Rattle.toc_table.specs.Tables.{placed_toc_fault};

    /// The fault in bytes of this length.
    pub fn placed(self, len: usize) -> ArchiveFault
        ensures { result ≡ placed_toc_fault len self }
    {
        match self {
            TocHalt::Entry(halt) => ArchiveFault::Entry(halt.placed(len)),
            TocHalt::TooMany(n) => ArchiveFault::TooMany(n),
            TocHalt::RepeatedId(id) => ArchiveFault::RepeatedId(id),
        }
    }
}

/// Why a table of contents could not be read: it is at fault, or memory ran out.
#[derive(Drop)]
pub enum TocStop {
    /// The table is at fault.
    Halt(TocHalt),
    /// Memory ran out.
    Memory,
}

impl From<AllocError> for TocStop {
    ghost from_gives = { λ _ stop. stop ≡ stops.Memory };

    fn from(_error: AllocError) -> TocStop {
        TocStop::Memory
    }
}

impl<T: Drop> From<AllocFailed<T>> for TocStop {
    ghost from_gives = { λ _ stop. stop ≡ stops.Memory };

    fn from(_error: AllocFailed<T>) -> TocStop {
        TocStop::Memory
    }
}

//! Why a dump wasn't written.
ghost use Rattle.std.specs.Prelude.{◌≡◌};
ghost use Rattle.dump_files.specs.declared.stop.DumpStop.TheVariants.{Memory};

use copy_text::Text;
use data_rows::RowsFault;
use std::alloc::{AllocError, AllocFailed};
use thiserror::Error;

/// Why a dump wasn't written, or not to its end.
#[derive(Debug, Drop, Error)]
pub enum DumpStop {
    /// A data file that is needed is absent; its whole path.
    #[error("missing file {path}", path = .0.as_str())]
    Missing(Text),
    /// A data file has more than 2^40 bytes. The number is its told size, or where it grew while it was read the limit
    /// and one more.
    #[error("a data file of {0} bytes or more")]
    TooLarge(u64),
    /// A read failed.
    #[error("could not read")]
    ReadFault,
    /// A row of a data file can't be dumped.
    #[error("rows of table {table}: {first}")]
    BadRows {
        /// The oid of the table.
        table: u32,
        /// Its first row that fails.
        first: RowsFault,
    },
    /// A write failed.
    #[error("could not write")]
    WriteFault,
    /// Memory ran out.
    #[error("out of memory")]
    Memory,
}

impl From<AllocError> for DumpStop {
    ghost from_gives = { λ _ stop. stop ≡ Memory };

    fn from(_error: AllocError) -> DumpStop {
        DumpStop::Memory
    }
}

impl<T: Drop> From<AllocFailed<T>> for DumpStop {
    ghost from_gives = { λ _ stop. stop ≡ Memory };

    fn from(_error: AllocFailed<T>) -> DumpStop {
        DumpStop::Memory
    }
}

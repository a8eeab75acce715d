//! Why an export folder has no catalogue.
ghost use Rattle.std.specs.Prelude.{◌≡◌};
ghost use Rattle.folder_io.specs.Folders.{most_bytes};
ghost use Rattle.folder_io.specs.declared.fault.FolderFault.TheVariants as faults;

use crate::file::ExportFile;
use cat_rows::RowFault;
use copy_text::Text;
use std::alloc::{AllocError, AllocFailed};
use std::fmt;
use thiserror::Error;

/// What is wrong with a place in a file.
#[derive(Clone, Copy, Debug, PartialEq, Eq, Error)]
pub enum ExportKind {
    /// The marker isn't that of version 1.
    #[error("not version 1")]
    Version,
    /// The line is no row of the table.
    #[error("{0}")]
    Row(RowFault),
}

/// What has a limit of bytes.
#[derive(Clone, Copy, Debug)]
pub enum FolderLimit {
    /// The file of one system table.
    TableFile,
    /// The file of one table's rows.
    DataFile,
    /// All files of a folder together.
    Folder,
}

impl FolderLimit {
    /// The most bytes: 134,217,728 of one file, and 268,435,456 of all together.
    pub fn bytes(self) -> u64
        ensures { result ≡ most_bytes self }
    {
        match self {
            FolderLimit::TableFile | FolderLimit::DataFile => 134_217_728,
            FolderLimit::Folder => 268_435_456,
        }
    }
}

impl fmt::Display for FolderLimit {
    fn fmt<W: fmt::Write>(&self, f: &mut fmt::Formatter<W>) -> fmt::Result {
        f.write_str(match self {
            FolderLimit::TableFile => "a table's file",
            FolderLimit::DataFile => "a data file",
            FolderLimit::Folder => "a folder",
        })
    }
}

/// Why a folder can't be read as a catalogue and the rows of its tables.
#[derive(Debug, Drop, Error)]
pub enum FolderFault {
    /// Reading failed.
    #[error("could not read")]
    Failed,
    /// A file is absent; its whole path.
    #[error("missing file {path}", path = .0.as_str())]
    Missing(Text),
    /// The first place that fails.
    #[error("{file}, line {line}: {kind}")]
    BadExport {
        /// The file.
        file: ExportFile,
        /// The line, counted from 1.
        line: u64,
        /// What is wrong with it.
        kind: ExportKind,
    },
    /// A limit of bytes is passed; the number is the limit and one more.
    #[error("{0} of {1} bytes or more")]
    TooLarge(FolderLimit, u64),
    /// Memory ran out.
    #[error("out of memory")]
    Memory,
}

impl From<AllocError> for FolderFault {
    ghost from_gives = { λ _ fault. fault ≡ faults.Memory };

    fn from(_error: AllocError) -> FolderFault {
        FolderFault::Memory
    }
}

impl<T: Drop> From<AllocFailed<T>> for FolderFault {
    ghost from_gives = { λ _ fault. fault ≡ faults.Memory };

    fn from(_error: AllocFailed<T>) -> FolderFault {
        FolderFault::Memory
    }
}

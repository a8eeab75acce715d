//! Why the list or the script of an archive isn't written.
ghost use Rattle.std.specs.Prelude.{◌≡◌};
ghost use Rattle.restore_texts.specs.declared.fault.TextFault.TheVariants as faults;
ghost use Rattle.restore_texts.specs.Faults.{of_archive, of_directory, of_list};

use copy_text::Text;
use fmt_directory::DirFault;
use list_files::{EditError, ListFault};
use std::alloc::{AllocError, AllocFailed};
use toc_layout::{ArchiveFault, ReadArchiveError};

/// What has a limit in bytes.
#[derive(Debug, Clone, Copy)]
pub enum TextLimit {
    /// A custom archive, or the files of a directory archive together.
    Archive,
    /// A list file.
    List,
}

/// Why the list or the script of an archive isn't written.
#[derive(Drop)]
pub enum TextFault {
    /// A read failed.
    Failed,
    /// A file is absent; its whole path.
    Missing(Text),
    /// A limit is passed; the number is the limit and one more.
    TooLarge(TextLimit, u64),
    /// The archive has no reading.
    Archive(ArchiveFault),
    /// The list file has no reading.
    List(ListFault),
    /// Memory ran out.
    Memory,
}

impl From<AllocError> for TextFault {
    ghost from_gives = { λ _ fault. fault ≡ faults.Memory };

    fn from(_error: AllocError) -> TextFault {
        TextFault::Memory
    }
}

impl<T: Drop> From<AllocFailed<T>> for TextFault {
    ghost from_gives = { λ _ fault. fault ≡ faults.Memory };

    fn from(_error: AllocFailed<T>) -> TextFault {
        TextFault::Memory
    }
}

impl From<ReadArchiveError> for TextFault {
    ghost from_gives = { λ error fault. fault ≡ of_archive error };

    fn from(error: ReadArchiveError) -> TextFault {
        match error {
            ReadArchiveError::Fault(fault) => TextFault::Archive(fault),
            ReadArchiveError::Memory => TextFault::Memory,
        }
    }
}

impl From<DirFault> for TextFault {
    ghost from_gives = { λ error fault. fault ≡ of_directory error };

    fn from(error: DirFault) -> TextFault {
        match error {
            DirFault::Failed => TextFault::Failed,
            DirFault::Missing(name) => TextFault::Missing(name),
            DirFault::TooLarge(size) => TextFault::TooLarge(TextLimit::Archive, size),
            DirFault::Archive(fault) => TextFault::Archive(fault),
            DirFault::Memory => TextFault::Memory,
        }
    }
}

impl From<EditError> for TextFault {
    ghost from_gives = { λ error fault. fault ≡ of_list error };

    fn from(error: EditError) -> TextFault {
        match error {
            EditError::Fault(fault) => TextFault::List(fault),
            EditError::Memory => TextFault::Memory,
        }
    }
}

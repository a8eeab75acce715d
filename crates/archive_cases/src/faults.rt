//! How the faults of archives are shown.
use fmt_directory::DirFault;
use std::alloc::{AllocError, Global};
use toc_layout::{EntryFault, HeadFault, ReadArchiveError, ReadEntryError, ReadHeadError};

/// Appends why an archive can't be read.
pub(crate) fn put_archive_error(
    alloc: Global,
    error: ReadArchiveError,
    out: &mut Vec<u8>,
) -> Result<(), AllocError> {
    match error {
        ReadArchiveError::Fault(fault) => {
            out.extend_from_slice(format!(in alloc; "{fault:?}")?.as_bytes())
        }
        ReadArchiveError::Memory => Err(AllocError),
    }
}

/// Appends why a directory can't be read.
pub(crate) fn put_directory_fault(
    alloc: Global,
    fault: DirFault,
    out: &mut Vec<u8>,
) -> Result<(), AllocError> {
    match fault {
        DirFault::Archive(fault) => {
            out.extend_from_slice(format!(in alloc; "{fault:?}")?.as_bytes())
        }
        DirFault::Memory => Err(AllocError),
        DirFault::Failed | DirFault::Missing(_) | DirFault::TooLarge(_) => {
            out.extend_from_slice(b"no file")
        }
    }
}

fn put_head_fault(alloc: Global, fault: HeadFault, out: &mut Vec<u8>) -> Result<(), AllocError> {
    out.extend_from_slice(format!(in alloc; "Head({fault:?})")?.as_bytes())
}

/// Appends what is wrong with an entry.
pub(crate) fn put_entry_fault(
    alloc: Global,
    fault: EntryFault,
    out: &mut Vec<u8>,
) -> Result<(), AllocError> {
    out.extend_from_slice(format!(in alloc; "Entry({fault:?})")?.as_bytes())
}

/// Appends why a head can't be read.
pub(crate) fn put_head_error(
    alloc: Global,
    error: ReadHeadError,
    out: &mut Vec<u8>,
) -> Result<(), AllocError> {
    match error {
        ReadHeadError::Fault(fault) => put_head_fault(alloc, fault, out),
        ReadHeadError::Memory => Err(AllocError),
    }
}

/// Appends why an entry can't be read.
pub(crate) fn put_entry_error(
    alloc: Global,
    error: ReadEntryError,
    out: &mut Vec<u8>,
) -> Result<(), AllocError> {
    match error {
        ReadEntryError::Fault(fault) => put_entry_fault(alloc, fault, out),
        ReadEntryError::Memory => Err(AllocError),
    }
}

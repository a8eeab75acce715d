//! Why a head or an entry can't be read.
//!
//! While bytes are read from the front, a fault counts the bytes that are left from its place on (`HeadHalt`,
//! `EntryHalt`); what callers get tells the place in all of the bytes (`HeadFault`, `EntryFault`).
ghost use Rattle.std.specs.Prelude.{◌≡◌};
ghost use Rattle.toc_layout.specs.declared.fault.EntryStop.TheVariants as entry_stops;
ghost use Rattle.toc_layout.specs.declared.fault.HeadStop.TheVariants as head_stops;
ghost use Rattle.toc_layout.specs.declared.fault.ReadArchiveError.TheVariants as archive_errors;

use std::alloc::{AllocError, AllocFailed};
use thiserror::Error;
use toc_parts::{FieldError, FieldFault};

/// What is wrong with an entry, and how many bytes are left from the first one of the field on.
#[derive(Clone, Copy)]
pub enum EntryHalt {
    /// The bytes end within the entry.
    Short,
    /// A dump id below 1, or an oid or a dependency that is no number.
    BadNumber {
        /// The bytes left from the field on.
        left: usize,
    },
    /// A section other than 1 to 4.
    BadSection {
        /// The bytes left from the field on.
        left: usize,
    },
    /// A length below -1, or bytes that aren't UTF-8.
    BadString {
        /// The bytes left from the field on.
        left: usize,
    },
    /// A state other than 1 to 3.
    BadState {
        /// The bytes left from the field on.
        left: usize,
    },
}

/// Why an entry can't be read: its first fault, with the place of the field's first byte, counted from 0.
#[derive(Clone, Copy, Debug, Error)]
pub enum EntryFault {
    /// The bytes end within the entry; their number.
    #[error("the bytes end at {0}, within an entry")]
    Short(usize),
    /// A dump id below 1, or an oid or a dependency that isn't the digits of a number up to 4294967295.
    #[error("no number at byte {0}")]
    BadNumber(usize),
    /// A section other than 1 to 4.
    #[error("no section at byte {0}")]
    BadSection(usize),
    /// A string with a length below -1, or whose bytes aren't UTF-8.
    #[error("no string at byte {0}")]
    BadString(usize),
    /// A state other than 1 to 3.
    #[error("no state at byte {0}")]
    BadState(usize),
}

impl EntryHalt {
    ghost use Rattle.toc_layout.specs.Faults.{placed_entry_fault};

    /// The fault in bytes of this length. A place past the front is the front.
    pub fn placed(self, len: usize) -> EntryFault
        ensures { result ≡ placed_entry_fault len self }
    {
        match self {
            EntryHalt::Short => EntryFault::Short(len),
            EntryHalt::BadNumber { left } => EntryFault::BadNumber(len.saturating_sub(left)),
            EntryHalt::BadSection { left } => EntryFault::BadSection(len.saturating_sub(left)),
            EntryHalt::BadString { left } => EntryFault::BadString(len.saturating_sub(left)),
            EntryHalt::BadState { left } => EntryFault::BadState(len.saturating_sub(left)),
        }
    }
}

/// Why the entry at the front could not be read: it is at fault, or memory ran out.
#[derive(Drop)]
pub enum EntryStop {
    /// The entry is at fault.
    Halt(EntryHalt),
    /// Memory ran out.
    Memory,
}

impl From<EntryHalt> for EntryStop {
    ghost from_gives = { λ halt stop. stop ≡ entry_stops.Halt halt };

    fn from(halt: EntryHalt) -> EntryStop {
        EntryStop::Halt(halt)
    }
}

impl From<FieldFault> for EntryHalt {
    ghost use Rattle.std.specs.Prelude.{◌≡◌};
    ghost use Rattle.toc_layout.specs.Faults.{in_entry};

    ghost from_gives = { λ fault halt. halt ≡ in_entry fault };

    fn from(fault: FieldFault) -> EntryHalt {
        match fault {
            FieldFault::Short => EntryHalt::Short,
            FieldFault::BadString { left } => EntryHalt::BadString { left },
        }
    }
}

impl From<FieldFault> for EntryStop {
    ghost use Rattle.std.specs.Prelude.{◌≡◌};
    ghost use Rattle.toc_layout.specs.declared.fault.EntryStop.TheVariants as entry_stops;
    ghost use Rattle.toc_layout.specs.Faults.{in_entry};

    ghost from_gives = { λ fault stop. stop ≡ entry_stops.Halt (in_entry fault) };

    fn from(fault: FieldFault) -> EntryStop {
        match fault {
            FieldFault::Short => EntryStop::Halt(EntryHalt::Short),
            FieldFault::BadString { left } => EntryStop::Halt(EntryHalt::BadString { left }),
        }
    }
}

impl From<FieldError> for EntryStop {
    ghost use Rattle.std.specs.Prelude.{◌≡◌};
    ghost use Rattle.toc_layout.specs.Faults.{entry_stop};

    ghost from_gives = { λ error stop. stop ≡ entry_stop error };

    fn from(error: FieldError) -> EntryStop {
        match error {
            FieldError::Fault(FieldFault::Short) => EntryStop::Halt(EntryHalt::Short),
            FieldError::Fault(FieldFault::BadString { left }) => {
                EntryStop::Halt(EntryHalt::BadString { left })
            }
            FieldError::Memory => EntryStop::Memory,
        }
    }
}

impl From<AllocError> for EntryStop {
    ghost from_gives = { λ _ stop. stop ≡ entry_stops.Memory };

    fn from(_error: AllocError) -> EntryStop {
        EntryStop::Memory
    }
}

impl<T: Drop> From<AllocFailed<T>> for EntryStop {
    ghost from_gives = { λ _ stop. stop ≡ entry_stops.Memory };

    fn from(_error: AllocFailed<T>) -> EntryStop {
        EntryStop::Memory
    }
}

/// Why an entry could not be read: it is at fault, or memory ran out.
#[derive(Debug, Drop, Error)]
pub enum ReadEntryError {
    /// The entry is at fault.
    #[error("{0}")]
    Fault(EntryFault),
    /// Memory ran out.
    #[error("out of memory")]
    Memory,
}

/// What is wrong with a head, and for a string how many bytes are left from its first one on.
#[derive(Clone, Copy)]
pub enum HeadHalt {
    /// The bytes don't begin with `PGDMP`.
    Magic,
    /// The bytes end within the head.
    Short,
    /// A version of the format that isn't read.
    Version(u8, u8),
    /// Integers don't have four bytes.
    IntSize,
    /// Offsets don't have eight bytes.
    OffSize,
    /// The archive is compressed.
    Compressed(u8),
    /// A length below -1, or bytes that aren't UTF-8.
    BadString {
        /// The bytes left from the string on.
        left: usize,
    },
}

/// Why a head can't be read: its first fault, in the order of the bytes. Places count bytes from 0.
#[derive(Clone, Copy, Debug, Error)]
pub enum HeadFault {
    /// The text is a plain script that pg_dump or pg_dumpall wrote.
    #[error("a plain script and no archive")]
    TextDump,
    /// A byte differs from `PGDMP`.
    #[error("no archive")]
    Magic,
    /// The bytes end within the head; their number.
    #[error("the bytes end at {0}, within the head")]
    Short(usize),
    /// The version's first two numbers, other than 1 and 15.
    #[error("version {0}.{1} of the archive format")]
    Version(u8, u8),
    /// Integers have other than four bytes.
    #[error("integers of another size")]
    IntSize,
    /// Offsets have other than eight bytes.
    #[error("offsets of another size")]
    OffSize,
    /// The code of the compression, other than 0.
    #[error("compression {0}")]
    Compressed(u8),
    /// A string with a length below -1, or whose bytes aren't UTF-8; the place of its first byte.
    #[error("no string at byte {0}")]
    BadString(usize),
}

impl HeadHalt {
    ghost use Rattle.toc_layout.specs.Faults.{placed_head_fault};

    /// The fault in bytes of this length. A place past the front is the front.
    pub fn placed(self, len: usize) -> HeadFault
        ensures { result ≡ placed_head_fault len self }
    {
        match self {
            HeadHalt::Magic => HeadFault::Magic,
            HeadHalt::Short => HeadFault::Short(len),
            HeadHalt::Version(major, minor) => HeadFault::Version(major, minor),
            HeadHalt::IntSize => HeadFault::IntSize,
            HeadHalt::OffSize => HeadFault::OffSize,
            HeadHalt::Compressed(code) => HeadFault::Compressed(code),
            HeadHalt::BadString { left } => HeadFault::BadString(len.saturating_sub(left)),
        }
    }
}

/// Why the head at the front could not be read: it is at fault, or memory ran out.
#[derive(Drop)]
pub enum HeadStop {
    /// The head is at fault.
    Halt(HeadHalt),
    /// Memory ran out.
    Memory,
}

impl From<HeadHalt> for HeadStop {
    ghost from_gives = { λ halt stop. stop ≡ head_stops.Halt halt };

    fn from(halt: HeadHalt) -> HeadStop {
        HeadStop::Halt(halt)
    }
}

impl From<FieldFault> for HeadStop {
    ghost use Rattle.std.specs.Prelude.{◌≡◌};
    ghost use Rattle.toc_layout.specs.declared.fault.HeadStop.TheVariants as head_stops;
    ghost use Rattle.toc_layout.specs.Faults.{in_head};

    ghost from_gives = { λ fault stop. stop ≡ head_stops.Halt (in_head fault) };

    fn from(fault: FieldFault) -> HeadStop {
        match fault {
            FieldFault::Short => HeadStop::Halt(HeadHalt::Short),
            FieldFault::BadString { left } => HeadStop::Halt(HeadHalt::BadString { left }),
        }
    }
}

impl From<FieldError> for HeadStop {
    ghost use Rattle.std.specs.Prelude.{◌≡◌};
    ghost use Rattle.toc_layout.specs.Faults.{head_stop};

    ghost from_gives = { λ error stop. stop ≡ head_stop error };

    fn from(error: FieldError) -> HeadStop {
        match error {
            FieldError::Fault(FieldFault::Short) => HeadStop::Halt(HeadHalt::Short),
            FieldError::Fault(FieldFault::BadString { left }) => {
                HeadStop::Halt(HeadHalt::BadString { left })
            }
            FieldError::Memory => HeadStop::Memory,
        }
    }
}

impl From<AllocError> for HeadStop {
    ghost from_gives = { λ _ stop. stop ≡ head_stops.Memory };

    fn from(_error: AllocError) -> HeadStop {
        HeadStop::Memory
    }
}

/// Why a head could not be read: it is at fault, or memory ran out.
#[derive(Debug, Drop, Error)]
pub enum ReadHeadError {
    /// The head is at fault.
    #[error("{0}")]
    Fault(HeadFault),
    /// Memory ran out.
    #[error("out of memory")]
    Memory,
}

/// Why an archive can't be read: its first fault. Places count bytes from 0.
///
/// The order is the head, the format, the entries by bytes, the blocks by bytes, and then entry by entry whether it has
/// its block, and whether its offset is that block's place.
#[derive(Clone, Copy, Debug, Error)]
pub enum ArchiveFault {
    /// The head is at fault.
    #[error("{0}")]
    Head(HeadFault),
    /// The code of another format.
    #[error("format {0}")]
    WrongFormat(u8),
    /// The number of entries, or an entry, is at fault.
    #[error("{0}")]
    Entry(EntryFault),
    /// More entries than 200,000; their number.
    #[error("{0} entries")]
    TooMany(u64),
    /// A dump id that an earlier entry has.
    #[error("dump id {0} stands twice")]
    RepeatedId(u32),
    /// The bytes end within a block; their number.
    #[error("the bytes end at {0}, within a block")]
    Short(usize),
    /// No block begins here: another byte than 1 and 3 stands in its place, a piece's length is below 0, an offset is no
    /// block's place, or in a directory bytes follow the last entry.
    #[error("no block at byte {0}")]
    Block(usize),
    /// The number of a block that no entry with rows has, or that an offset leads another entry to.
    #[error("block of the wrong entry {0}")]
    WrongId(i64),
    /// A second block of one entry; the place of its first byte.
    #[error("second block of an entry at byte {0}")]
    RepeatedBlock(usize),
    /// The dump id of an entry with rows that has no block.
    #[error("entry {0} has no block")]
    NoBlock(u32),
    /// A block of large objects; the place of its first byte.
    #[error("large objects at byte {0}")]
    LargeObjects(usize),
}

/// Why an archive could not be read: it is at fault, or memory ran out.
#[derive(Debug, Drop, Error)]
pub enum ReadArchiveError {
    /// The archive is at fault.
    #[error("{0}")]
    Fault(ArchiveFault),
    /// Memory ran out.
    #[error("out of memory")]
    Memory,
}

impl From<AllocError> for ReadArchiveError {
    ghost from_gives = { λ _ error. error ≡ archive_errors.Memory };

    fn from(_error: AllocError) -> ReadArchiveError {
        ReadArchiveError::Memory
    }
}

impl<T: Drop> From<AllocFailed<T>> for ReadArchiveError {
    ghost from_gives = { λ _ error. error ≡ archive_errors.Memory };

    fn from(_error: AllocFailed<T>) -> ReadArchiveError {
        ReadArchiveError::Memory
    }
}

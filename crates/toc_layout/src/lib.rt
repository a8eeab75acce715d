//! An archive's head and its entries as bytes: how they are read and written, and the laws of both.
#![tactic(auto)]

mod fault;
mod head_reading;
mod head_writing;
pub mod laws;
mod places;
mod reading;
mod writing;

pub use fault::{
    ArchiveFault, EntryFault, EntryHalt, EntryStop, HeadFault, HeadHalt, HeadStop,
    ReadArchiveError, ReadEntryError, ReadHeadError,
};
pub use head_reading::{is_text_dump, read_head, split_head};
pub use head_writing::write_head;
pub use places::{read_entry, read_int, read_str};
pub use reading::{dump_id, entry_behind, whole};
pub use writing::{write_entry, write_int, write_str};

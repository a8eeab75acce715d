//! What pg_restore writes without restoring: the list of an archive, or its script.
#![tactic(auto)]

mod asked;
mod custom;
mod directory;
mod fault;
mod files;
mod whole;

pub use asked::{ArchiveFormat, Wish};
pub use custom::{custom_text, read_custom};
pub use directory::{read_directory, toc_len};
pub use fault::{TextFault, TextLimit};
pub use files::{read_file, read_places};
pub use whole::{archive_text, is_directory};

//! Export folders read as catalogues.
#![tactic(auto)]

mod beyond;
mod fault;
mod file;
pub mod laws;
mod reading;
mod tables;
mod texts;

pub use beyond::has_rows_beyond;
pub use fault::{ExportKind, FolderFault, FolderLimit};
pub use file::ExportFile;
pub use reading::{ReadCatalogue, read_catalogue};
pub use texts::read_file;

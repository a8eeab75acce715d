//! pg_restore, where a folder is restored into: an archive is read, its entries are carried out on the folder's opening, the
//! folder is written, and the report is told.
#![tactic(auto)]

mod asked;
mod input;
pub mod laws;
mod telling;
mod tool;

pub use tool::restore_folder;

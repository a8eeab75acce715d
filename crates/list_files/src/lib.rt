//! List files of pg_restore: what one says, and the list of an archive.
#![tactic(auto)]

mod chosen;
mod editing;
mod fault;
mod laws;
mod line;
mod list;
mod order;
mod places;

pub use chosen::chosen_places;
pub use editing::edit;
pub use fault::{EditError, ListFault};
pub use laws::{worked_edits, worked_lists};
pub use list::{list_of, list_text};

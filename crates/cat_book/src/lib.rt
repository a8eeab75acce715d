//! What leads where in a catalogue, as one book, and the one loop over a table's lines.
#![tactic(auto)]

mod book;
mod chains;
mod found;
mod leads;
mod lines;
mod oids;
mod seen;

pub use book::Book;
pub use lines::{Conditions, RowKeys, RowName, Unmet, check_lines};
pub use oids::{is_key, is_primary, keys};

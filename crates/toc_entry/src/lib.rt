//! An archive's head and the entries of its table of contents.
#![tactic(auto)]

mod dump_ids;
mod entry;
mod head;

pub use dump_ids::DumpIds;
pub use entry::{Entry, Extra};
pub use head::Head;

//! Entries of an archive as a restore sees them: their statements, read and in order.
#![tactic(auto)]

mod fault;
mod kinds;
mod laws;
mod list;
mod statements;

pub use fault::{PlanError, PlanFault};
pub use laws::{kinds_by_desc, owner_statements, what_is_left_out};
pub use list::{RestoredEntries, restored_entries};

//! The plan of a restore: what each entry depends on, what comes before it, its locks, and the serial restore.
#![tactic(auto)]

mod entry;
mod examples;
mod kind;
mod laws;
mod planned;
mod status;
mod step;

pub use entry::Entry;
pub use examples::{
    constraints_lock_tables, one_schema_twice, owners_are_notes, parents_and_children,
    rows_stand_for_tables,
};
pub use kind::Kind;
pub use laws::{chains_skip, plans_stay_in_places};
pub use planned::Planned;
pub use status::{EntryStatus, Note};
pub use step::Step;

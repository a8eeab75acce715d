//! What a restore leaves.
use cat_engine::Engine;
use restore_plan::{EntryStatus, Note};

/// What a restore leaves.
#[derive(Drop)]
pub struct Restored {
    /// The engine, with the catalogue as it is then.
    pub engine: Engine,
    /// The status of each entry, in the order of the list.
    pub statuses: Vec<EntryStatus>,
    /// The owner statements that were refused, in the order of the list.
    pub notes: Vec<Note>,
}

//! What came of entries.
ghost use Rattle.std.specs.Prelude.{◌≡◌};
ghost use Rattle.restore_plan.specs.Serial.{blocks as the_blocking};

use cat_model::Cause;

/// What came of an entry.
#[derive(Drop)]
pub enum EntryStatus {
    /// Its statements ran.
    Done,
    /// A statement was refused, and those behind it didn't run.
    Refused {
        /// The statement, counted from 1, its owner statement with them.
        stmt: u32,
        /// Why.
        cause: Cause,
    },
    /// It depends on an entry that was refused or skipped.
    Skipped {
        /// The dump id of the first such entry in its own order of dependencies.
        by: u32,
    },
}

/// An entry's owner statement that was refused; the entry went on.
#[derive(Drop)]
pub struct Note {
    /// The entry.
    pub dump_id: u32,
    /// Why.
    pub cause: Cause,
}

impl EntryStatus {
    /// Whether an entry that depends on it is skipped: it was refused or skipped.
    pub fn blocks(&self) -> bool
        ensures { result ≡ the_blocking self.now }
    {
        match self {
            EntryStatus::Done => false,
            EntryStatus::Refused { .. } | EntryStatus::Skipped { .. } => true,
        }
    }
}

//! What a worker does next.

/// What a worker of a restore does next. Entries are counted from 0 in the order of the list.
#[derive(Clone, Copy)]
pub enum Turn {
    /// It runs this entry.
    Run {
        /// The entry.
        entry: usize,
    },
    /// It skips this entry.
    Skip {
        /// The entry.
        entry: usize,
    },
    /// It waits until an entry has ended that another worker runs.
    NotYet,
    /// Every entry has ended.
    Finished,
}

//! What may happen next in a restore.
/// What may happen next in a restore. Entries are counted from 0 in the order of the list.
#[derive(Clone, Copy)]
pub enum Event {
    /// A worker starts an entry.
    Start {
        /// The worker, below 64.
        worker: u32,
        /// The entry.
        entry: usize,
    },
    /// An entry is skipped.
    Skip {
        /// The entry.
        entry: usize,
    },
    /// A worker runs the next statement of its entry.
    Step {
        /// The worker.
        worker: u32,
    },
}

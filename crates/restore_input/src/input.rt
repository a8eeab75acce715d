//! Entries with their rows.
use toc_entry::Entry;

/// The entries that a restore takes, in the order in which it restores them, and the rows of each.
#[derive(Drop)]
pub struct RestoreInput {
    /// The entries.
    pub entries: Vec<Entry>,
    /// The rows of each, in the order of the entries; `None` of one without rows.
    pub texts: Vec<Option<Vec<u8>>>,
}

//! Footprints.
use crate::class::Mark;
use crate::items::Items;

/// What a statement reads and what it writes.
#[derive(Drop)]
pub struct Footprint {
    /// What it reads.
    pub reads: Items<Mark>,
    /// What it writes.
    pub writes: Items<Mark>,
}

//! The kinds of cases of archives.

/// What the cases of a block are of.
#[derive(Clone, Copy)]
pub enum ArchiveKind {
    /// Whole archives: what they hold, and what changes of them answer.
    Archive,
    /// What archives are made of: integers, strings, heads and entries.
    Entry,
}

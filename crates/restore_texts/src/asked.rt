//! What is asked of an archive.

/// What is written of the entries that are chosen.
#[derive(Clone, Copy)]
pub enum Wish {
    /// Their list.
    List,
    /// Their script.
    Script,
}

/// The format of an archive.
#[derive(Clone, Copy)]
pub enum ArchiveFormat {
    /// A file in the custom format.
    Custom,
    /// A folder in the directory format.
    Directory,
}

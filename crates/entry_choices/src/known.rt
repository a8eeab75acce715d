//! What is known of an entry that was passed.

/// What is known of an entry that was passed.
#[derive(Clone, Copy)]
pub struct Known {
    /// Its section, or that of its first dependency.
    pub section: u8,
    /// Whether it is taken.
    pub taken: bool,
}

//! How a script is written.

/// How a script is written.
#[derive(Clone, Copy)]
pub struct Options {
    /// Whether the script says who owns what: by its owner statements and in its comments.
    pub owners: bool,
}

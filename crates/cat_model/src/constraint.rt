//! Kinds of constraints and sequences.

/// What a constraint of a table is.
#[derive(Clone, Copy)]
pub enum ConstraintKind {
    /// A primary key.
    Primary,
    /// A unique constraint.
    Unique,
    /// A foreign key.
    Foreign,
    /// A check.
    Check,
}

/// The type of a sequence's numbers.
#[derive(Clone, Copy)]
pub enum SequenceKind {
    /// 16 bits.
    SmallInt,
    /// 32 bits.
    Integer,
    /// 64 bits.
    BigInt,
}

/// The encoding of a database.
#[derive(Clone, Copy)]
pub enum Encoding {
    /// UTF-8.
    Utf8,
}

//! Rights, and kinds of objects that have them.
use cat_model::Rights;

/// A right on an object.
#[derive(Clone, Copy)]
pub enum Right {
    /// SELECT.
    Select,
    /// USAGE.
    Usage,
    /// INSERT.
    Insert,
    /// REFERENCES.
    References,
    /// DELETE.
    Delete,
    /// TRIGGER.
    Trigger,
    /// TRUNCATE.
    Truncate,
    /// UPDATE.
    Update,
    /// CREATE.
    Create,
}

/// A kind of object that has rights.
#[derive(Clone, Copy)]
pub enum Kind {
    /// Tables and views.
    Tables,
    /// Sequences.
    Sequences,
    /// Schemas.
    Schemas,
    /// Enums and domains.
    Types,
}

/// The rights that a statement names.
#[derive(Clone, Copy)]
pub enum Wanted {
    /// All that the kind of object has.
    All,
    /// Those of a list.
    These(Rights),
}

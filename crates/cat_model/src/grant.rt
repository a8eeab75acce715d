//! Rights on objects, and who has them.
use crate::object::QName;
use copy_text::Name;

/// A set of rights.
#[derive(Clone, Copy, PartialEq, Eq)]
pub struct Rights {
    /// SELECT.
    pub select: bool,
    /// USAGE.
    pub usage: bool,
    /// INSERT.
    pub insert: bool,
    /// REFERENCES.
    pub references: bool,
    /// DELETE.
    pub delete: bool,
    /// TRIGGER.
    pub trigger: bool,
    /// TRUNCATE.
    pub truncate: bool,
    /// UPDATE.
    pub update: bool,
    /// CREATE.
    pub create: bool,
}

/// Whom rights are granted to.
#[derive(Drop)]
pub enum Grantee {
    /// Every role.
    Public,
    /// One role.
    Role(Name),
}

/// What rights are granted on, as the statement says it.
#[derive(Drop)]
pub enum Granted {
    /// A table or a view.
    Table(QName),
    /// A sequence.
    Sequence(QName),
    /// A schema.
    Schema(Name),
    /// An enum or a domain.
    Type(QName),
}

/// What gets an owner, as the statement says it.
#[derive(Drop)]
pub enum Owned {
    /// A schema.
    Schema(Name),
    /// An enum.
    Type(QName),
    /// A domain.
    Domain(QName),
    /// A table, a view or a sequence.
    Table(QName),
    /// A sequence.
    Sequence(QName),
    /// A view.
    View(QName),
    /// A database.
    Database(Name),
}

/// What gets a comment, as the statement says it.
#[derive(Drop)]
pub enum Commented {
    /// A schema.
    Schema(Name),
    /// An enum.
    Type(QName),
    /// A domain.
    Domain(QName),
    /// A table.
    Table(QName),
    /// A view.
    View(QName),
    /// A sequence.
    Sequence(QName),
    /// An index, of a constraint too.
    Index(QName),
    /// A column of a table.
    Column(QName, Name),
    /// A constraint of a table.
    Constraint(QName, Name),
}

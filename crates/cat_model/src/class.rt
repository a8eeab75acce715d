//! Classes of keys, and marks of a footprint.
use crate::constraint::ConstraintKind;
use crate::items::Items;
use crate::key::Key;
use crate::object::QName;
use copy_text::Name;

/// Some of the keys, together with those that aren't there yet.
#[derive(Drop)]
pub enum Class {
    /// The constraints of a table.
    Constraints(QName),
    /// The indexes of a table that aren't constraints'.
    Indexes(QName),
    /// The primary keys of a table.
    PrimaryKeys(QName),
    /// The primary keys, unique constraints and unique indexes of a table on a set of plain columns.
    KeysOn(QName, Items<Name>),
    /// The memberships of a role and its member, whoever granted them.
    Members(Name, Name),
}

/// What a statement reads or writes: one key, or the keys of a class.
#[derive(Drop)]
pub enum Mark {
    /// A key.
    Key(Key),
    /// The key of a constraint that wasn't there, with its kind and columns.
    NewConstraint {
        /// The table.
        table: QName,
        /// The constraint.
        name: Name,
        /// Its kind.
        kind: ConstraintKind,
        /// Its columns.
        columns: Items<Name>,
    },
    /// The key of an index that wasn't there.
    NewIndex {
        /// The table.
        table: QName,
        /// The index.
        name: Name,
        /// The columns of a unique index on plain columns, and `None` for any other.
        unique_on: Option<Items<Name>>,
    },
    /// The keys of a class.
    Class(Class),
}

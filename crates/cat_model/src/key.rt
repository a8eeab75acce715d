//! The keys of the catalogue by names.
ghost use Rattle.std.specs.Prelude.{◌≡◌};
ghost use Rattle.cat_model.specs.KeyLaws.{key_alike};

use crate::object::{Object, QName};
use copy_text::Name;
use std::alloc::AllocError;

/// What the catalogue by names is keyed by: 16 kinds, each object by its path.
#[derive(Hash, Drop)]
pub enum Key {
    /// A role.
    Role(Name),
    /// A membership: the role, its member and who granted it.
    Member(Name, Name, Name),
    /// A schema.
    Schema(Name),
    /// An enum or a domain.
    UserType(QName),
    /// A table, a view, a sequence or an index.
    Rel(QName),
    /// The owner of an object.
    Owner(Object),
    /// The default of a column of a table.
    Default(QName, Name),
    /// A constraint of a table.
    Con(QName, Name),
    /// An index of a table that isn't a constraint's.
    Index(QName, Name),
    /// The rows of a table.
    Rows(QName),
    /// The value of a sequence.
    SeqVal(QName),
    /// The column that owns a sequence.
    OwnedBy(QName),
    /// The grants on an object.
    Acl(Object),
    /// The comment on an object.
    Comment(Object),
    /// The body of a view.
    Body(QName),
    /// A database.
    Database(Name),
}

// Equal keys are the same key, so whatever is hashed of one is hashed of the other.
#[derived]
impl Hash for Key {
    ghost respects_eq = { key_alike _ };
}

impl Clone for Key {
    ghost is_clone = { λ a b. b ≡ a };

    fn clone(&self) -> Result<Key, AllocError> {
        match self {
            Key::Role(name) => Ok(Key::Role(name.clone()?)),
            Key::Member(role, member, grantor) => Ok(Key::Member(
                role.clone()?,
                member.clone()?,
                grantor.clone()?,
            )),
            Key::Schema(name) => Ok(Key::Schema(name.clone()?)),
            Key::UserType(q) => Ok(Key::UserType(q.clone()?)),
            Key::Rel(q) => Ok(Key::Rel(q.clone()?)),
            Key::Owner(object) => Ok(Key::Owner(object.clone()?)),
            Key::Default(q, column) => Ok(Key::Default(q.clone()?, column.clone()?)),
            Key::Con(q, name) => Ok(Key::Con(q.clone()?, name.clone()?)),
            Key::Index(q, name) => Ok(Key::Index(q.clone()?, name.clone()?)),
            Key::Rows(q) => Ok(Key::Rows(q.clone()?)),
            Key::SeqVal(q) => Ok(Key::SeqVal(q.clone()?)),
            Key::OwnedBy(q) => Ok(Key::OwnedBy(q.clone()?)),
            Key::Acl(object) => Ok(Key::Acl(object.clone()?)),
            Key::Comment(object) => Ok(Key::Comment(object.clone()?)),
            Key::Body(q) => Ok(Key::Body(q.clone()?)),
            Key::Database(name) => Ok(Key::Database(name.clone()?)),
        }
    }
}

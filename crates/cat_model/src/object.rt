//! Paths of names.
ghost use Rattle.std.specs.Prelude.{◌≡◌};

use copy_text::Name;
use std::alloc::AllocError;

/// The path of an object in a schema.
#[derive(PartialEq, Eq, PartialOrd, Ord, Hash, Drop)]
pub struct QName {
    /// The schema.
    pub schema: Name,
    /// The name in the schema.
    pub name: Name,
}

/// An object that may have an owner, grants or a comment, by its path.
#[derive(PartialEq, Eq, PartialOrd, Ord, Hash, Drop)]
pub enum Object {
    /// A schema.
    Schema(Name),
    /// An enum or a domain.
    Type(QName),
    /// A table, a view, a sequence or an index.
    Relation(QName),
    /// A column of a table.
    Column(QName, Name),
    /// A constraint of a table.
    Constraint(QName, Name),
    /// A database.
    Database(Name),
}

impl Clone for QName {
    ghost is_clone = { λ a b. b ≡ a };

    fn clone(&self) -> Result<QName, AllocError> {
        Ok(QName {
            schema: self.schema.clone()?,
            name: self.name.clone()?,
        })
    }
}

impl Clone for Object {
    ghost is_clone = { λ a b. b ≡ a };

    fn clone(&self) -> Result<Object, AllocError> {
        match self {
            Object::Schema(name) => Ok(Object::Schema(name.clone()?)),
            Object::Type(q) => Ok(Object::Type(q.clone()?)),
            Object::Relation(q) => Ok(Object::Relation(q.clone()?)),
            Object::Column(q, name) => Ok(Object::Column(q.clone()?, name.clone()?)),
            Object::Constraint(q, name) => Ok(Object::Constraint(q.clone()?, name.clone()?)),
            Object::Database(name) => Ok(Object::Database(name.clone()?)),
        }
    }
}

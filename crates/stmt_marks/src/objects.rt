//! The keys and paths of the objects that statements name by their kinds.
ghost use Rattle.std.specs.Prelude.{◌≡◌, IfOk};
ghost use Rattle.cat_model.specs.declared.class.Mark.TheVariants as mark;
ghost use Rattle.cat_model.specs.Footprints.{owned_key, granted_key, commented_key};
ghost use Rattle.cat_model.specs.ObjectEffects.{owned_object, granted_object, commented_object};

use crate::single::{constraint, database, relation, schema, user_type};
use cat_model::{Commented, Granted, Mark, Object, Owned};
use std::alloc::AllocError;

pub(crate) fn owned_key(what: &Owned) -> Result<Mark, AllocError>
    ensures { IfOk result (λ m. m ≡ mark.Key (owned_key what.now)) }
{
    match what {
        Owned::Schema(name) => schema(name),
        Owned::Type(q) | Owned::Domain(q) => user_type(q),
        Owned::Table(q) | Owned::Sequence(q) | Owned::View(q) => relation(q),
        Owned::Database(name) => database(name),
    }
}

pub(crate) fn owned_object(what: &Owned) -> Result<Object, AllocError>
    ensures { IfOk result (λ o. o ≡ owned_object what.now) }
{
    match what {
        Owned::Schema(name) => Ok(Object::Schema(name.clone()?)),
        Owned::Type(q) | Owned::Domain(q) => Ok(Object::Type(q.clone()?)),
        Owned::Table(q) | Owned::Sequence(q) | Owned::View(q) => Ok(Object::Relation(q.clone()?)),
        Owned::Database(name) => Ok(Object::Database(name.clone()?)),
    }
}

pub(crate) fn granted_key(what: &Granted) -> Result<Mark, AllocError>
    ensures { IfOk result (λ m. m ≡ mark.Key (granted_key what.now)) }
{
    match what {
        Granted::Table(q) | Granted::Sequence(q) => relation(q),
        Granted::Schema(name) => schema(name),
        Granted::Type(q) => user_type(q),
    }
}

pub(crate) fn granted_object(what: &Granted) -> Result<Object, AllocError>
    ensures { IfOk result (λ o. o ≡ granted_object what.now) }
{
    match what {
        Granted::Table(q) | Granted::Sequence(q) => Ok(Object::Relation(q.clone()?)),
        Granted::Schema(name) => Ok(Object::Schema(name.clone()?)),
        Granted::Type(q) => Ok(Object::Type(q.clone()?)),
    }
}

pub(crate) fn commented_key(what: &Commented) -> Result<Mark, AllocError>
    ensures { IfOk result (λ m. m ≡ mark.Key (commented_key what.now)) }
{
    match what {
        Commented::Schema(name) => schema(name),
        Commented::Type(q) | Commented::Domain(q) => user_type(q),
        Commented::Table(q)
        | Commented::View(q)
        | Commented::Sequence(q)
        | Commented::Index(q)
        | Commented::Column(q, _) => relation(q),
        Commented::Constraint(q, name) => constraint(q, name),
    }
}

pub(crate) fn commented_object(what: &Commented) -> Result<Object, AllocError>
    ensures { IfOk result (λ o. o ≡ commented_object what.now) }
{
    match what {
        Commented::Schema(name) => Ok(Object::Schema(name.clone()?)),
        Commented::Type(q) | Commented::Domain(q) => Ok(Object::Type(q.clone()?)),
        Commented::Table(q) | Commented::View(q) | Commented::Sequence(q) | Commented::Index(q) =>
            Ok(Object::Relation(q.clone()?)),
        Commented::Column(q, column) => {
            let q = q.clone()?;
            Ok(Object::Column(q, column.clone()?))
        }
        Commented::Constraint(q, name) => {
            let q = q.clone()?;
            Ok(Object::Constraint(q, name.clone()?))
        }
    }
}

//! What a dump is made of: objects that are restored one by one.
ghost use Rattle.std.specs.Prelude.{◌≡◌};

use copy_text::Name;
use std::alloc::AllocError;

/// The row that stands for an object: the oid of its system table, and its own oid there.
///
/// Table data and sequence values have class 0 and the oid of their relation, the boundary before all data has class 1 and
/// oid 0, and the one behind all data class 2 and oid 0.
#[derive(Debug, Clone, Copy, PartialEq, Eq, PartialOrd, Ord, Hash)]
pub struct ObjId {
    /// The oid of the system table, or 0 to 2 for what no row stands for.
    pub class: u32,
    /// The oid of the row.
    pub oid: u32,
}

/// What kind of object it is.
#[derive(Clone, Copy)]
pub enum ObjKind {
    /// A schema.
    Schema,
    /// An enum or a domain.
    UserType,
    /// A table, with its checks and the defaults that don't stand alone.
    Table,
    /// A view with its body.
    View,
    /// A view without its body, which a rule gives it later.
    Dummy,
    /// A sequence.
    Sequence,
    /// A column's default that is set by itself, after its table.
    Default,
    /// The boundary between what holds data and the data.
    PreData,
    /// The rows of a table.
    TableData,
    /// The value of a sequence.
    SeqValue,
    /// The boundary between the data and what is made behind it.
    PostData,
    /// A primary key or a unique constraint.
    Constraint,
    /// An index that belongs to no constraint.
    Index,
    /// The body of a dummy view.
    Rule,
    /// A foreign key.
    Foreign,
}

/// An object with the names by which a dump orders objects.
#[derive(Drop)]
pub struct Obj {
    /// The row that stands for it.
    pub id: ObjId,
    /// Its kind.
    pub kind: ObjKind,
    /// The name of its schema; `None` for a schema and for the boundaries.
    pub schema: Option<Name>,
    /// Its name; a rule, data and a default carry their relation's. `None` for the boundaries.
    pub name: Option<Name>,
    /// The column that a default belongs to, as its number in the table; 0 for all others.
    pub attnum: i64,
}

impl Clone for Obj {
    ghost is_clone = { λ a b. b ≡ a };

    fn clone(&self) -> Result<Obj, AllocError> {
        Ok(Obj {
            id: self.id,
            kind: self.kind,
            schema: self.schema.clone()?,
            name: self.name.clone()?,
            attnum: self.attnum,
        })
    }
}

//! What a row has of oids, rights and numbers of columns.
use acl_text::Acl;

/// What the row of an object in a schema has besides its name and what it is.
#[derive(Drop)]
pub struct Head {
    /// The object's oid.
    pub oid: u32,
    /// The oid of its schema.
    pub schema: u32,
    /// The oid of the role that owns it.
    pub owner: u32,
    /// Its rights; `None` stands for those of a new object.
    pub rights: Option<Acl>,
}

/// The oids in the row of a constraint of a table.
#[derive(Clone, Copy)]
pub struct ConstraintOids {
    /// The constraint's oid.
    pub oid: u32,
    /// The oid of its table.
    pub table: u32,
    /// The oid of the index of a key; 0 for any other constraint.
    pub index: u32,
    /// The oid of the table that a foreign key refers to; 0 for any other constraint.
    pub parent: u32,
}

/// A column by the oid of its table and its number.
#[derive(Clone, Copy)]
pub struct ColumnPlace {
    /// The oid of its table.
    pub relation: u32,
    /// Its number.
    pub number: i64,
}

/// What a comment is on, by its oid.
#[derive(Clone, Copy)]
pub enum Place {
    /// A schema.
    Schema(u32),
    /// An enum or a domain.
    Type(u32),
    /// A table, a view, a sequence or an index.
    Relation(u32),
    /// A column of a table.
    Column(ColumnPlace),
    /// A constraint of a table.
    Constraint(u32),
}

//! The values of the catalogue by names.
use crate::checks::Checks;
use crate::constraint::{ConstraintKind, Encoding, SequenceKind};
use crate::grants::Grants;
use crate::items::Items;
use crate::object::QName;
use crate::rows::TableRows;
use crate::type_name::TypeName;
use copy_text::{Name, Text};

/// The attributes of a role.
#[derive(Drop)]
pub struct Role {
    /// SUPERUSER.
    pub superuser: bool,
    /// INHERIT.
    pub inherit: bool,
    /// CREATEROLE.
    pub create_role: bool,
    /// CREATEDB.
    pub create_db: bool,
    /// LOGIN.
    pub login: bool,
    /// REPLICATION.
    pub replication: bool,
    /// BYPASSRLS.
    pub bypass_rls: bool,
    /// CONNECTION LIMIT; -1 is none.
    pub limit: i64,
    /// PASSWORD; `None` where there is none.
    pub password: Option<Text>,
    /// VALID UNTIL; `None` where the password doesn't end.
    pub valid_until: Option<Text>,
}

/// What a membership allows.
#[derive(Drop)]
pub struct Membership {
    /// ADMIN.
    pub admin: bool,
    /// INHERIT.
    pub inherit: bool,
    /// SET.
    pub set: bool,
}

/// What a type is at the end of its chain of domains.
#[derive(Drop)]
pub struct Resolved {
    /// That type, as it is named.
    pub type_name: TypeName,
    /// Its labels in order, where it is an enum.
    pub labels: Option<Items<Text>>,
    /// Whether a domain of the chain takes no null.
    pub not_null: bool,
}

/// A domain.
#[derive(Drop)]
pub struct Domain {
    /// The type that it is based on, as it is named.
    pub base: TypeName,
    /// What that type is at the end of its chain of domains.
    pub resolved: Resolved,
    /// Whether the domain takes no null.
    pub not_null: bool,
    /// The expression of its default.
    pub default: Option<Text>,
    /// Its checks.
    pub checks: Checks,
}

/// A column of a table.
#[derive(Drop)]
pub struct Column {
    /// The column.
    pub name: Name,
    /// Its type, as it is named.
    pub type_name: TypeName,
    /// What its type is at the end of its chain of domains.
    pub resolved: Resolved,
    /// Whether it takes no null.
    pub not_null: bool,
}

/// The numbers that a sequence gives out.
#[derive(Drop)]
pub struct Sequence {
    /// Their type.
    pub kind: SequenceKind,
    /// The first one.
    pub start: i64,
    /// What is added to come to the next.
    pub step: i64,
    /// The least one.
    pub min: i64,
    /// The greatest one.
    pub max: i64,
    /// How many are taken at once.
    pub cache: i64,
    /// Whether they begin anew behind the last.
    pub cycle: bool,
}

/// A constraint of a table.
#[derive(Drop)]
pub struct Constraint {
    /// What it is.
    pub kind: ConstraintKind,
    /// Its columns.
    pub columns: Items<Name>,
    /// The table and the columns that a foreign key refers to; `None` for any other constraint.
    pub parent: Option<(QName, Items<Name>)>,
    /// Its kept text.
    pub text: Text,
}

/// An index that isn't a constraint's.
#[derive(Drop)]
pub struct Index {
    /// How it is kept, as btree.
    pub method: Name,
    /// Whether it is unique.
    pub unique: bool,
    /// Its kept text, from the bracket on.
    pub text: Text,
}

/// What stands under a key. A key of each kind has values of its own.
#[derive(Drop)]
pub enum Value {
    /// The attributes of a role.
    Role(Role),
    /// What a membership allows.
    Member(Membership),
    /// A schema.
    Schema,
    /// An enum, with its labels in order.
    Enum(Items<Text>),
    /// A domain.
    Domain(Domain),
    /// A table, with its columns in order.
    Table(Items<Column>),
    /// A sequence.
    Sequence(Sequence),
    /// A view.
    View,
    /// An index of this table.
    IndexOf(QName),
    /// The role that owns an object.
    Owner(Name),
    /// The expression of a column's default.
    DefaultText(Text),
    /// A constraint of a table.
    Constraint(Constraint),
    /// An index that isn't a constraint's.
    Index(Index),
    /// The rows of a table, fields in the order of its columns.
    Rows(TableRows),
    /// The value of a sequence, and whether it was given out.
    SequenceValue(i64, bool),
    /// The table and its column that own a sequence.
    OwnedBy(QName, Name),
    /// The rights on an object.
    Grants(Grants),
    /// A comment.
    Comment(Text),
    /// The body of a view.
    Body(Text),
    /// A database, with its encoding.
    Database(Encoding),
}

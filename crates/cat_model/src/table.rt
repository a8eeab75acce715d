//! What a table, a domain and a role are made of.
use crate::type_name::TypeName;
use copy_text::{Name, Text};

/// A column of a new table.
#[derive(Drop)]
pub struct ColumnDef {
    /// The column.
    pub name: Name,
    /// Its type.
    pub type_name: TypeName,
    /// The expression of its default.
    pub default: Option<Text>,
    /// Whether it takes no null.
    pub not_null: bool,
}

/// A check of a table or a domain.
#[derive(Drop)]
pub struct CheckDef {
    /// The check.
    pub name: Name,
    /// The expression between its brackets.
    pub text: Text,
}

/// The attributes of a role that a statement names; the others stay.
#[derive(Drop)]
pub struct RoleChanges {
    /// SUPERUSER.
    pub superuser: Option<bool>,
    /// INHERIT.
    pub inherit: Option<bool>,
    /// CREATEROLE.
    pub create_role: Option<bool>,
    /// CREATEDB.
    pub create_db: Option<bool>,
    /// LOGIN.
    pub login: Option<bool>,
    /// REPLICATION.
    pub replication: Option<bool>,
    /// BYPASSRLS.
    pub bypass_rls: Option<bool>,
    /// CONNECTION LIMIT.
    pub limit: Option<i64>,
    /// PASSWORD.
    pub password: Option<Text>,
    /// VALID UNTIL.
    pub valid_until: Option<Text>,
}

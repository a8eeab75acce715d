//! From names back to rows: the tables of roles, memberships, databases and schemas that stand for a catalogue by names, whose
//! objects have these oids. Each table is made in one pass over the catalogue's entries, in their order. Here are also the
//! look-ups that rows of all tables are made by.
#![tactic(auto)]

mod adding;
mod databases;
mod let_go;
mod lookups;
mod members;
mod oids;
mod roles;
mod schemas;

pub use adding::{push, push_some};
pub use databases::database_rows;
pub use lookups::{grants_on, owner_of};
pub use members::member_rows;
pub use oids::{
    body_oid, check_oid, constraint_oid, database_oid, default_oid, index_oid, label_oid,
    named_type_oid, relation_oid, role_oid, schema_oid, type_oid,
};
pub use roles::role_rows;
pub use schemas::schema_rows;

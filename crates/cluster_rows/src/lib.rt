//! The rows of roles, memberships, databases and schemas, and lists of rights, made of what a catalogue by names has and of
//! oids.
#![tactic(auto)]

mod lists;
mod rows;
mod same;

pub use lists::acl_of;
pub use rows::{database_row, member_row, role_row, schema_row};

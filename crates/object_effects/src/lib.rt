//! What statements about schemas, owners, grants, comments, roles and databases come to: a list of changes, or the cause of
//! a refusal.
#![tactic(auto)]

mod objects;
mod roles;

pub use objects::{GrantChange, change_grants, comment_on, create_schema, owner_to};
pub use roles::{MemberOptions, alter_role, create_database, create_role, grant_role};

//! Rights, roles, databases and comments: their statements, read exactly by their grammar behind the first word.
#![tactic(auto)]

mod comments;
mod databases;
mod grants;
mod memberships;
mod rights;
mod roles;

pub use comments::comment_on;
pub use databases::create_database;
pub use grants::{granted, revoked};
pub use roles::{alter_role, create_role};

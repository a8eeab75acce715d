//! The conditions of the eight system tables whose rows hold no texts of statements.
#![tactic(auto)]

mod comments;
mod depends;
mod labels;
mod relations;
mod roles;
mod schemas;

pub use comments::Comments;
pub use depends::Depends;
pub use labels::Labels;
pub use relations::Relations;
pub use roles::{Databases, Members, Roles};
pub use schemas::{Schemas, is_system, other_left_out};

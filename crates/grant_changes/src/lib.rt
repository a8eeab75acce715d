//! The grants on objects: those of a new object, and what GRANT, REVOKE and a new owner make of them.
#![tactic(auto)]

mod change;
mod new;
mod rights;

pub use change::{granted, holder_of, joined, revoked};
pub use new::{owner_only, type_grants};
pub use rights::{
    NO_RIGHTS, SCHEMA_RIGHTS, SEQUENCE_RIGHTS, TABLE_RIGHTS, TYPE_RIGHTS, both_rights, has_rights,
    rights_less,
};

//! Well-formed catalogues, and what they stand for by names.
#![tactic(auto)]

mod data_set;
mod fault;
mod keys;
pub mod laws;
mod oid_counts;
mod oid_index;
mod relations;
mod rights;
mod role_index;

pub use data_set::DataSet;
pub use fault::{
    CatFault, CheckError, FaultKind, Findings, LineError, LineFault, at_table, left_out_first,
};
pub use keys::add_key;
pub use oid_counts::OidCounts;
pub use oid_index::OidIndex;
pub use relations::{RelationKind, relation_kind};
pub use rights::{GrantKind, is_bad_acl, is_by_other};
pub use role_index::RoleIndex;

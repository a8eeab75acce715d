//! The steps of a statement on the catalogue by names: its conditions, each of which goes on or refuses, and the changes
//! that it makes. What a statement of each kind comes to is made of them in the crates above.
#![tactic(auto)]

mod changes;
mod condition;
mod references;
mod refusal;

pub use changes::{one, set_grants, set_owner, with_made};
pub use condition::{
    ObjectKind, column_in, column_there, free, free_relation, free_type, is_system, needs,
    needs_domain, needs_each, needs_kind, needs_role, needs_sequence, needs_table,
};
pub use eng_map::{let_go_key, set};
pub use references::{check_refs, default_refs, needs_but_relation, needs_but_type};
pub use refusal::ApplyError;

//! What statements that make enums and domains come to: a list of changes, or the cause of a refusal.
#![tactic(auto)]

mod types;

pub use types::{NewDomain, add_domain_check, check_names, create_domain, create_enum, needs_type};

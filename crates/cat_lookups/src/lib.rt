//! A catalogue whose rows are found without going through its tables.
#![tactic(auto)]

mod lookups;

pub use lookups::Lookups;

//! Where a dump is written, apart from what it reads.
#![tactic(auto)]

pub mod laws;

//! What restores leave of a well-formed opening is in order: laws.
#![tactic(auto)]

pub mod laws;

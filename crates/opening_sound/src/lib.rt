//! What statements leave of a well-formed opening is in order, and can be exported: laws.
#![tactic(auto)]

pub mod laws;

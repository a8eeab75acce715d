//! What scripts and restores leave of a folder that is taken in can be exported: laws.
#![tactic(auto)]

pub mod laws;

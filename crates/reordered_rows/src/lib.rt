//! Tables that stand for a catalogue by names stand for it in the order too in which a folder is read, and then their folder is
//! read: laws.
#![tactic(auto)]

pub mod laws;

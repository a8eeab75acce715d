//! Laws of scripts: what the script of entries reads as.
#![tactic(auto)]

pub mod laws;

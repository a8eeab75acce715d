//! Laws of the scripts of dumps: what the script of a dump of a well-formed catalogue reads as, statement by statement.
#![tactic(auto)]

pub mod laws;

//! The folder of tables that are made of what is left of an opening is read, and stands for it: laws.
#![tactic(auto)]

pub mod laws;

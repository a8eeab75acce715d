//! Folders that psql takes in stand for sound catalogues, and so does what it makes of them.
#![tactic(auto)]

pub mod laws;

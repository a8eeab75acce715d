//! Laws of the statements for grants: that they can be written, and so are read back.
#![tactic(auto)]

pub mod laws;

//! Laws of the statements that a dump writes: that they can be written, and so are read back.
#![tactic(auto)]

pub mod laws;

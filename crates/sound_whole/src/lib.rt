//! What is loaded is sound, and stays so behind each script: the first of three laws on catalogues by names, with the second
//! put behind it.
#![tactic(auto)]

pub mod laws;

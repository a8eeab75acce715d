//! What pg_clone is asked for: which folder is dumped, what of it, and into which folder that is restored.
#![tactic(auto)]

mod asked;
pub mod laws;

pub use asked::{CloneAsked, clone_asked};

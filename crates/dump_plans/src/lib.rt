//! pg_dump: what its words choose of a folder, and all that a dump needs before its first byte is written.
#![tactic(auto)]

mod choosing;
mod outcomes;
mod reading;

pub use choosing::select_of;
pub use outcomes::stop_outcome;
pub use reading::{DumpPlan, read_dump};

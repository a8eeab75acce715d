//! A restore with one worker, from the entries that it takes to what it leaves and what it tells.
#![tactic(auto)]

pub mod laws;
mod lines;
mod report;
mod run;
mod stopping;
mod wanted;

pub use report::write_report;
pub use run::{RestoreTold, run_entries};
pub use wanted::wanted_entries;

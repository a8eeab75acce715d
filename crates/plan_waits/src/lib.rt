//! What each entry of a plan waits for, found by what it reads and writes and not by trying all pairs.
#![tactic(auto)]

mod buckets;
mod examples;
mod finding;
mod index;
mod waits;

pub use examples::{rows_wait_for_parents, what_meets_and_clashes};
pub use waits::all_waits;

//! Export folders that hold the same texts, taken in once.
#![tactic(auto)]

mod as_one;
mod opening;
mod streams;

pub use as_one::open_as_one;
pub use opening::{have_one_opening, opens_alike};

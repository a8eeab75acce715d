//! What COPY into a table comes to: the rows of its text behind those of the table, or the cause of a refusal.
#![tactic(auto)]

mod copying;
mod foreigns;
mod joined;
mod prepared;
mod uniques;

pub use copying::{copy_prepared, copy_rows};
pub use prepared::{PrepareError, Prepared, prepare};

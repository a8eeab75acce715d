//! Texts of rows tried against a table without making their rows.
//!
//! Each test says yes where it is sure: that the lines fit the table, that keys differ or rise, that keys are among others. It says
//! no of a line whose fields don't stand in it as they are, so that a no says nothing.
#![tactic(auto)]

mod clear_keys;
mod fitting;
mod fused;
mod keys;
pub mod laws;
mod parts;

pub use clear_keys::clear_keys_are_among;
pub use fitting::rows_fit;
pub use fused::rows_fit_rising;
pub use keys::{key_set, keys_are_among, keys_differ, keys_rise};
pub use parts::{is_part, part_fits};

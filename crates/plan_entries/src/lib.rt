//! The plan of a restore made: what each entry of a list depends on, locks, reads and writes, in its place.
#![tactic(auto)]

mod earlier;
mod examples;
mod footprints;
mod places;
mod plan;
mod texts;

pub use examples::the_last_rows_count;
pub use places::placed_entries;
pub use plan::Plan;

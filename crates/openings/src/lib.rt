//! Export folders taken in whole: the catalogue, the rows of its tables, which meet them, and what both stand for by
//! names.
#![tactic(auto)]

mod reading;

pub use reading::{Opening, open_export, read_opening};

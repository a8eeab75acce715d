//! The rows that the objects of a dump are made of, found by their objects.
#![tactic(auto)]

mod at_places;
mod dump_rows;
mod groupings;
mod places;

pub use dump_rows::DumpRows;

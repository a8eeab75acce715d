//! What statements read and write in the catalogue by names.
#![tactic(auto)]

mod lists;
mod objects;
mod parts;
mod reads;
mod single;
mod whole;
mod writes;

pub use whole::footprint;

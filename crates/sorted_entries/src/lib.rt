//! The entries of a catalogue by names, in the order of keys.
#![tactic(auto)]

mod listing;

pub use listing::in_order;

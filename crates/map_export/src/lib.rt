//! From names back to rows: what each entry of a catalogue by names says of a table, and that rows of what all entries say,
//! one of each in the order of keys, stand for the catalogue.
#![tactic(auto)]

mod laws;

pub use laws::clusters_stand;

//! From names back to rows: the rows of labels, columns, defaults, constraints, indexes, sequences, bodies of views and
//! comments, one of each that an entry of a catalogue by names says, stand for it.
#![tactic(auto)]

mod laws;

pub use laws::parts_stand;

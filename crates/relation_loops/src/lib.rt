//! From names back to rows: the tables of types and of relations that stand for a catalogue by names, whose objects have these
//! oids, each made in one pass over the catalogue's entries; and that rows so made stand for all of a catalogue that is in
//! order.
#![tactic(auto)]

mod heads;
mod laws;
mod relations;
mod types;

pub use laws::wholes_stand;
pub use relations::relation_rows;
pub use types::type_rows;

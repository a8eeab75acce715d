//! What all tables of a catalogue, with the rows of its tables, stand for by names.
#![tactic(auto)]

mod checks;
mod cluster;
mod columns;
mod comments;
mod constraints;
mod entries;
mod grants;
pub mod laws;
mod named;
mod relations;
mod sequences;
mod texts;
mod types;

pub use named::catalogue_map;

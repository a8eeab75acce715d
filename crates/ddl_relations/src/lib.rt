//! Tables, sequences, indexes and types: their statements, read exactly by their grammar.
#![tactic(auto)]

mod alters;
mod columns;
mod copying;
mod relations;
mod rests;
mod sequences;
mod tables;
mod values;

pub use alters::{altered_table, constraint_body, new_owner};
pub use copying::copy_from;
pub use relations::{altered_sequence, created_relation, index_body};
pub use tables::{create_domain, create_enum, create_table, named_check};
pub use values::set_value;

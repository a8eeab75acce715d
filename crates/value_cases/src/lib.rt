//! Values of the catalogue by names as a case shows them. These functions have no clauses beside that they are safe and
//! end: what they write is compared with answers from outside.
#![tactic(auto)]

mod parts;
mod relations;
mod rights;
mod roles;
mod values;

pub use values::put_value;

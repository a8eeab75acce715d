//! Patterns of psql's kind: which schemas and names they hit.
//!
//! They are those of <https://www.postgresql.org/docs/16/app-psql.html#APP-PSQL-PATTERNS>, as `pg_dump -n` and `-t` take
//! them, without their regular expressions: outside quotes `*` stands for any characters, `?` for one, a letter for
//! itself made small, and a dot separates the schema from the name.
#![tactic(auto)]

mod atom;
mod fault;
mod hits;
pub mod laws;
mod marks;
mod pattern;
mod reading;

pub use atom::{Atom, Part};
pub use fault::{PatternFault, PatternReadError};
pub use hits::pattern_hits;
pub use pattern::Pattern;
pub use reading::{pattern_fault, pattern_read};

//! The grammar of the kinds of statement: its definitions.
#![tactic(auto)]

mod alters;
mod relations;
mod rights;
mod sequences;
mod tables;

pub use alters::{Constraint, TableChange};
pub use relations::Index;
pub use rights::{Kind, Right, Wanted};
pub use sequences::{Bound, Clause, Clauses};
pub use tables::{Spot, TableElement};

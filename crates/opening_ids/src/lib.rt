//! The oids and the numbers of columns that an opening has, by what its rows are of.
#![tactic(auto)]

mod cluster;
mod giving;
mod laws;
mod let_go;
mod numbers;
mod objects;
mod opening;
mod parts;

pub use laws::oids_are_kept;
pub use numbers::opening_numbers;
pub use opening::opening_ids;

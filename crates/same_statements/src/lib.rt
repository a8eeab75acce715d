//! Whether two statements are the same, and whether they read and write the same.
#![tactic(auto)]

mod fields;
mod marks;
mod parts;
mod statements;

pub use marks::same_footprint;
pub use statements::same_statement;

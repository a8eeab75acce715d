//! The lines in which psql tells the statements of a script that were refused.
#![tactic(auto)]

mod causes;
pub mod laws;
mod parts;
mod report;

pub use causes::write_cause;
pub use report::{Refusal, write_refusal, write_report};

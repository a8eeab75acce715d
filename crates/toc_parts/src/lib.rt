//! The parts of an archive's layout: their definitions, laws, readers and writers.
#![tactic(auto)]

mod fault;
pub mod laws;
mod reading;
mod writing;

pub use fault::{FieldError, FieldFault};
pub use reading::{byte, integer, natural, number, number_in, number_of_eight, span, string, text};
pub use writing::{write_bytes, write_decimal, write_integer, write_number_of_eight, write_string};

//! A catalogue and the rows of its tables, taken in by the engine where the rows of each table meet it.
#![tactic(auto)]

mod meeting;

pub use meeting::{LoadError, LoadFault, load};

//! Rows of tables that meet them, told from the texts of the tables without making their rows.
//!
//! A yes is sure: then `cat_load` finds no fault. A no says nothing.
#![tactic(auto)]

mod foreigns;
mod lines;
mod meeting;
mod parents;
mod trying;
mod uniques;

pub use meeting::rows_meet;
pub use trying::{KnownKeys, TableTrial, bare_map, begin_trial};

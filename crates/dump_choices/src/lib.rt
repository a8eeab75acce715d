//! What a dump of a selection needs: its table of contents, and which rows of which tables it reads.
#![tactic(auto)]

mod choosing;
mod data;

pub use choosing::entries;
pub use data::{TableData, table_data};

//! From names back to rows: the fifteen tables and the rows of tables that stand for a catalogue by names, which began as an
//! opening.
//!
//! What had an oid keeps it, and columns keep their numbers where these still rise; the columns of views and dependencies are
//! the opening's.
#![tactic(auto)]

mod catalogues;
mod cluster;
mod exporting;
mod objects;
mod parts;
mod row_data;

pub use exporting::{Exported, export};

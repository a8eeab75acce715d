//! The catalogue by names as a map: values under keys, all or nothing of a statement's changes, and the keys of a class
//! found without going over all.
#![tactic(auto)]

mod changes;
mod classes;
mod entries;
mod groups;
mod let_go;
mod named_map;
mod picks;

pub use changes::set;
pub use entries::{Entries, push_entry};
pub use let_go::{let_go_changes, let_go_entries, let_go_key, let_go_map};
pub use named_map::{Change, NamedMap};

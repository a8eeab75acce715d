//! The oids of objects, of checks of domains and of labels of enums: which each has, and new ones. No two rows of a table
//! have the same.
#![tactic(auto)]

mod ids;
mod laws;
mod let_go;
mod slots;

pub use ids::Ids;
pub use laws::{
    given_oids_stay_apart, new_oids_are_apart, none_are_apart, numbered_have_oids,
    numbered_keep_oids,
};
pub use slots::{Slot, check_slot, label_slot, object_slot};

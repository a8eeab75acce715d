//! Which objects of a catalogue a dump chooses, and what depends on what.
#![tactic(auto)]

mod ids;
mod key_of;
mod link;
mod patterns_hit;
mod select;

pub use ids::{
    constraint_id, data_id, default_id, post_data, pre_data, relation_id, rule_id, schema_id,
    type_id,
};
pub use key_of::KeyOf;
pub use link::Link;
pub use patterns_hit::{are_none, is_hit, is_path_hit, select_fault};
pub use select::{ObjectsError, Select, SelectFault};

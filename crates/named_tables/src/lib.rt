//! When the tables of roles, memberships, databases and schemas stand for a catalogue by names, and that tables which stand
//! for a catalogue that is in order are well-formed and are named as it.
#![tactic(auto)]

mod laws;

pub use laws::{
    clusters_are_named, clusters_meet_the_examples, databases_are_named,
    databases_meet_their_table, members_are_named, members_meet_their_table, rights_are_named,
    roles_are_named, roles_meet_their_table, schemas_are_named, schemas_meet_their_table,
};

//! When the fifteen tables and the rows of tables stand for a catalogue by names, and that tables of types, relations and
//! their parts which stand for a catalogue that is in order are well-formed and are named as it.
#![tactic(auto)]

mod laws;

pub use laws::{
    bodies_are_named, bodies_meet_their_table, catalogues_are_named, catalogues_are_well_formed,
    columns_meet_their_table, comments_are_named, comments_meet_their_table, constraints_are_named,
    constraints_meet_their_table, defaults_are_named, defaults_meet_their_table, indexes_are_named,
    indexes_meet_their_table, labels_are_named, labels_meet_their_table, relations_are_named,
    relations_meet_their_table, sequences_are_named, sequences_meet_their_table,
    tables_meet_the_examples, types_are_named, types_meet_their_table,
};

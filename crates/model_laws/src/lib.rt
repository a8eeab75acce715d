//! Laws and worked examples of the catalogue by names: its keys, effects and footprints.
#![tactic(auto)]

mod examples;
mod laws;

pub use examples::{
    copies_meet_where_paired, new_owner_keeps_its_rights, options_go_with_rights,
    runs_end_as_worked_out, statements_meet_the_examples,
};
pub use laws::{
    keys_are_ordered, only_writes_change, outcomes_depend_on_reads, second_schema_is_refused,
    statements_stay_within_footprints, trees_change_places,
};

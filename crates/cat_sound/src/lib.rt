//! When a catalogue by names can stand for rows, said in names, and that statements leave it so.
#![tactic(auto)]

mod consequences;
mod examples;
mod laws;

pub use consequences::{ends_are_what_chains_give, indexes_have_one_owner};
pub use examples::{
    an_empty_cluster_is_sound, what_does_not_fit_its_table_is_not_sound,
    what_is_wrong_as_a_whole_is_not_sound, what_lacks_a_role_or_schema_is_not_sound,
    what_runs_leave_is_sound,
};
pub use laws::{
    add_check_keeps, add_domain_check_keeps, add_foreign_keeps, add_primary_keeps,
    add_unique_keeps, alter_role_keeps, comment_keeps, copy_keeps, create_database_keeps,
    create_domain_keeps, create_enum_keeps, create_index_keeps, create_role_keeps,
    create_schema_keeps, create_sequence_keeps, create_table_keeps, create_unique_index_keeps,
    create_view_keeps, grant_keeps, grant_role_keeps, owned_by_keeps, owner_to_keeps,
    replace_view_keeps, revoke_keeps, runs_keep, set_default_keeps, set_value_keeps,
    statements_keep, statements_leave_what_is_there,
};

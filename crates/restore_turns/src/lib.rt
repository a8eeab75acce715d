//! What a worker of a restore does next, and for how many events a restore may go on.
#![tactic(auto)]

mod laws;
mod turn;

pub use laws::{
    each_event_leaves_less, finished_exactly_at_the_end, histories_are_bounded, histories_go_on,
    not_yet_only_while_one_runs, turns_are_enabled, turns_meet_the_examples,
};
pub use turn::Turn;

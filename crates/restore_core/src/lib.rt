//! The restore as a machine whose events may come in any order that it allows.
#![tactic(auto)]

mod event;
mod examples;
mod laws;
mod phase;

pub use event::Event;
pub use examples::{same_in_every_schedule, the_second_waits, two_workers_overlap};
pub use laws::{
    any_schedule_is_serial, history_is_in_list_order, running_entries_are_apart,
    some_event_is_enabled,
};
pub use phase::Phase;

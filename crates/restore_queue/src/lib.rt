//! Which entry of a restore a worker may take next, told by counts of the entries that each waits for.
#![tactic(auto)]

mod beginning;
mod behind;
mod choice;
mod choosing;
mod examples;
mod laws;
mod meeting;
mod queue;
mod readiness;
mod running;
mod setting;
mod waiting;

pub use choosing::turn_of;
pub use examples::locks_keep_apart;
pub use laws::{entries_move, nothing_has_begun, phases_change};
pub use meeting::meet_all;
pub use queue::Queue;
pub use waiting::mark;

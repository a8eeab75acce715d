//! Cases of restores, for the program `restore_trials`: calls of a program one after another, over the same files.
#![tactic(auto)]

mod answering;
mod archives;
mod calls;
mod folders;
mod lines;

pub use calls::Program;
pub use lines::answer_all;

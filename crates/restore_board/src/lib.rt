//! A restore that workers carry out by turns, whose history is a history of the machine.
#![tactic(auto)]

mod answer;
mod beginning;
mod board;
mod ending;
mod notes;
mod restored;
mod same;
mod stepping;

pub use answer::StepAnswer;
pub use board::Board;
pub use restored::Restored;

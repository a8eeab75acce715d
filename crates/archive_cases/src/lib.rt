//! Cases of archives: lines of text, and what they answer.
#![tactic(auto)]

mod answering;
mod archives;
mod changes;
mod entries;
mod faults;
mod hexadecimal;
mod kind;
mod showing;

pub use answering::answer;
pub use kind::ArchiveKind;
pub use showing::put_entry;

//! Cases of lists and scripts of archives, for the program `trials`.
#![tactic(auto)]

mod answering;
mod archive;
mod request;

pub use answering::answer;

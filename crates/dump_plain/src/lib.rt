//! Plain dumps: a script that is written as it is made, with the rows of data files in their places.
#![tactic(auto)]

mod dump;

pub use dump::plain_dump;

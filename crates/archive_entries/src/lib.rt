//! The entries of an archive that is dumped: whether it can be made of them, and how they tell where their rows are.
//!
//! An entry of a dump comes before it is known where its rows will stand, and for any format; the calls that write it tell
//! it beside them.
#![tactic(auto)]

mod extra;
mod fits;
mod fronts;

pub use extra::write_as;
pub use fits::can_be_archived;
pub use fronts::{write_filed, write_placed, write_unplaced};

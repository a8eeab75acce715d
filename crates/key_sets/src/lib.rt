//! Sets of keys that stand in a text.
//!
//! Keys of rows are mostly the numbers of a sequence. A number has its place in a list, so that adding or finding it takes
//! no hash; any other key is hashed.
#![tactic(auto)]

mod key_set;
mod number;

pub use key_set::KeySet;

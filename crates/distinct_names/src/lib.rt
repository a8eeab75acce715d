//! Whether names, or texts, are distinct.
#![tactic(auto)]

mod distinct;

pub use distinct::{are_distinct, are_distinct_texts};

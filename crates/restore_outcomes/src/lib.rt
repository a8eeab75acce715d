//! What the program answers of an archive whose list or script is asked for.
#![tactic(auto)]

mod answers;
mod texts;

pub use answers::text_outcome;
pub use texts::{input_text, path_text};

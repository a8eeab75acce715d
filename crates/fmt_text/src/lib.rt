//! Plain scripts: the text that makes the entries of an archive again.
#![tactic(auto)]

mod laws;
mod lines;
mod options;
mod owner;
mod part;
mod script;

pub use laws::worked_examples;
pub use lines::{put_shown, put_shown_or_dash};
pub use options::Options;
pub use owner::{owned_object, owner_of};
pub use part::{is_of_session, put_part};
pub use script::{put_end, put_head, script_text};

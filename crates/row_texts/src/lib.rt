//! Texts that the rows of system tables hold, each read as a whole: types, defaults, indexes, sequences' types and views.
#![tactic(auto)]

mod default_text;
mod distinct;
mod index_text;
pub mod laws;
mod sequence_type;
mod tokens;
mod type_text;
mod view_text;

pub use default_text::{default_said, is_default};
pub use distinct::are_distinct;
pub use index_text::{IndexText, index_said};
pub use sequence_type::sequence_kind;
pub use tokens::{all_read, all_tokens};
pub use type_text::type_named;
pub use view_text::view_body;

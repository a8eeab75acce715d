//! The readers of the parts of the grammar.
#![tactic(auto)]

mod collecting;
mod defaults;
mod macros;
mod numbers;
mod pieces;
mod qualified;
mod runs;
mod types;

pub use collecting::{Run, collect};
pub use ddl_parts::{Halt, Parsed, Piece, ReadError};
pub use numbers::{LIMIT, count_first, opposite, whole_number};
pub use pieces::{Pieces, halt, is_name_kind, is_sign_kind};
pub use qualified::qualified_name;

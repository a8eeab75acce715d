//! What kept texts refer to: the references of an expression and of a view's body, and the plain columns of an index.
#![tactic(auto)]

mod casts;
mod columns;
mod expression;
mod lexeme;
mod path;
mod place;
mod view;

pub use columns::plain_columns;
pub use expression::expr_refs;
pub use lexeme::{Lexeme, lexemes};
pub use view::view_refs;

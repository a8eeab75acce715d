//! The conditions of pg_constraint, with the texts of constraints.
#![tactic(auto)]

mod agreeing;
mod beside;
mod constraint_text;
mod key_set;
mod keys;
mod table;

pub use beside::Beside;
pub use constraint_text::{
    ConstraintText, constraint_said, only_statement, statement_text, statements_of,
};
pub use ddl_read::let_go_statements;
pub use table::Constraints;

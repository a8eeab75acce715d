//! Statements of SQL, read exactly by their grammar.
#![tactic(auto)]

mod kinds;
mod let_go;
mod meta_lines;
mod reading;

pub use ddl_scripts::{DdlFault, Located, ReadStmtsError};
pub use let_go::let_go_statements;
pub use meta_lines::meta_line;
pub use reading::read_stmts;

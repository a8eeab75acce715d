//! Statements that are let go by a call, since each crate that drops one has to prove the drop of all that it may hold.
use ddl_scripts::Located;

/// Lets statements go.
pub fn let_go_statements(statements: Vec<Located>) {
    drop(statements);
}

//! Scripts of schemas alone.
ghost use Rattle.std.specs.Prelude.{◌≡◌};
ghost use Rattle.schema_folders.specs.Statements.{is_taken, are_taken};

use cat_model::{Owned, Stmt};
use ddl_read::Located;

/// Whether all statements are of the kinds that are carried out on schemas alone: SET, set_config, CREATE SCHEMA and
/// ALTER SCHEMA .. OWNER TO.
pub fn are_taken(statements: &[Located]) -> bool
    ensures { result ≡ are_taken statements.now }
{
    statements.iter().all(|located| is_taken(&located.stmt))
}

/// Whether the statement is of such a kind.
fn is_taken(stmt: &Stmt) -> bool
    ensures { result ≡ is_taken stmt.now }
{
    matches!(
        stmt,
        Stmt::Set { .. }
            | Stmt::SetConfig { .. }
            | Stmt::CreateSchema { .. }
            | Stmt::OwnerTo {
                object: Owned::Schema(_),
                ..
            }
    )
}

//! Texts, and statements as texts.
ghost use Rattle.std.specs.Prelude.{◌≡◌, [], Some, IfOk};
ghost use Rattle.dump_stmts.specs.Paths.{written};

use cat_model::Stmt;
use copy_text::Text;
use ddl_write::{WriteStmtError, write_stmt};
use std::alloc::{AllocError, Global};

/// The text of these bytes, which the caller has put together from texts.
pub fn text_of_vec(bytes: Vec<u8>) -> Result<Text, AllocError>
    ensures { IfOk result (λ text. text ≡ bytes.items) }
{
    // The bytes are UTF-8, so this is never `None`.
    Text::new(bytes).ok_or(AllocError)
}

/// The text of these bytes, which are UTF-8.
pub fn text_of(alloc: Global, bytes: &[u8]) -> Result<Text, AllocError>
    ensures { IfOk result (λ text. text ≡ bytes.now) }
{
    text_of_vec(bytes.to_vec(alloc)?)
}

/// The text of length 0.
pub fn empty_text(alloc: Global) -> Result<Text, AllocError>
    ensures { IfOk result (λ text. text ≡ []) }
{
    text_of_vec(Vec::new(alloc))
}

/// The one written spelling of a statement.
pub fn spelled(alloc: Global, stmt: Stmt) -> Result<Text, AllocError>
    ensures { IfOk result (λ text. text ≡ written (Some stmt)) }
{
    let mut bytes = Vec::new(alloc);
    let written = write_stmt(&stmt, &mut bytes);
    drop(stmt);
    match written {
        Ok(()) => text_of_vec(bytes),
        Err(WriteStmtError::Memory) => Err(AllocError),
    }
}

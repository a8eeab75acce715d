//! Cases of scripts.
use cat_model::Stmt;
use ddl_read::{DdlFault, Located, ReadStmtsError, read_stmts};
use ddl_write::{WriteStmtError, write_stmt};
use std::alloc::{AllocError, Global};

/// Appends a statement's one spelling.
pub(crate) fn put_spelling(stmt: &Stmt, out: &mut Vec<u8>) -> Result<(), AllocError> {
    match write_stmt(stmt, out) {
        Ok(()) => Ok(()),
        Err(WriteStmtError::Memory) => Err(AllocError),
    }
}

// The name of a statement's kind.
fn kind_name(stmt: &Stmt) -> &'static str {
    match stmt {
        Stmt::Set { .. } => "Set",
        Stmt::SetConfig { .. } => "SetConfig",
        Stmt::CreateSchema { .. } => "CreateSchema",
        Stmt::CreateEnum { .. } => "CreateEnum",
        Stmt::CreateDomain { .. } => "CreateDomain",
        Stmt::AddDomainCheck { .. } => "AddDomainCheck",
        Stmt::CreateTable { .. } => "CreateTable",
        Stmt::CreateSequence { .. } => "CreateSequence",
        Stmt::OwnedBy { .. } => "OwnedBy",
        Stmt::SetVal { .. } => "SetVal",
        Stmt::CreateView { .. } => "CreateView",
        Stmt::ReplaceView { .. } => "ReplaceView",
        Stmt::SetDefault { .. } => "SetDefault",
        Stmt::AddPrimary { .. } => "AddPrimary",
        Stmt::AddUnique { .. } => "AddUnique",
        Stmt::AddForeign { .. } => "AddForeign",
        Stmt::AddCheck { .. } => "AddCheck",
        Stmt::CreateIndex { .. } => "CreateIndex",
        Stmt::CreateUniqueIndex { .. } => "CreateUniqueIndex",
        Stmt::CopyRows { .. } => "CopyRows",
        Stmt::Grant { .. } => "Grant",
        Stmt::Revoke { .. } => "Revoke",
        Stmt::Comment { .. } => "Comment",
        Stmt::OwnerTo { .. } => "OwnerTo",
        Stmt::CreateRole { .. } => "CreateRole",
        Stmt::AlterRole { .. } => "AlterRole",
        Stmt::GrantRole { .. } => "GrantRole",
        Stmt::CreateDatabase { .. } => "CreateDatabase",
        Stmt::Connect { .. } => "Connect",
    }
}

fn put_statements(
    alloc: Global,
    statements: &[Located],
    out: &mut Vec<u8>,
) -> Result<(), AllocError> {
    if statements.is_empty() {
        return out.extend_from_slice(b"(none)");
    }
    for (i, located) in statements.iter().enumerate() {
        if i > 0 {
            out.extend_from_slice(b" / ")?;
        }
        out.extend_from_slice(kind_name(&located.stmt).as_bytes())?;
        let span = format!(in alloc; " {}..{} ", located.start, located.end)?;
        out.extend_from_slice(span.as_bytes())?;
        put_spelling(&located.stmt, out)?;
    }
    Ok(())
}

fn put_fault(alloc: Global, fault: DdlFault, out: &mut Vec<u8>) -> Result<(), AllocError> {
    let name = match fault {
        DdlFault::Lex(_) => "Lex",
        DdlFault::Unknown(_) => "Unknown",
        DdlFault::LongName(_) => "LongName",
        DdlFault::Incomplete(_) => "Incomplete",
    };
    out.extend_from_slice(format!(in alloc; "{name}({})", fault.place())?.as_bytes())
}

/// A script: each statement with its kind, its span and its one spelling, or the fault.
pub(crate) fn script(alloc: Global, text: &[u8], out: &mut Vec<u8>) -> Result<(), AllocError> {
    match read_stmts(alloc, text) {
        Ok(statements) => put_statements(alloc, &statements, out),
        Err(ReadStmtsError::Fault(fault)) => put_fault(alloc, fault, out),
        Err(ReadStmtsError::Memory) => Err(AllocError),
    }
}

//! Cases of what statements read and write.
use crate::references::{put_key, put_names};
use cat_model::{Class, FkSet, Mark, QName, Stmt};
use ddl_read::{Located, ReadStmtsError, read_stmts};
use std::alloc::{AllocError, Global};
use stmt_marks::footprint;

fn put_path(word: &[u8], path: &QName, out: &mut Vec<u8>) -> Result<(), AllocError> {
    out.extend_from_slice(word)?;
    out.extend_from_slice(path.schema.as_bytes())?;
    out.extend_from_slice(b".")?;
    out.extend_from_slice(path.name.as_bytes())
}

fn put_class(class: &Class, out: &mut Vec<u8>) -> Result<(), AllocError> {
    match class {
        Class::Constraints(table) => put_path(b"constraints of ", table, out),
        Class::Indexes(table) => put_path(b"indexes of ", table, out),
        Class::PrimaryKeys(table) => put_path(b"primary keys of ", table, out),
        Class::KeysOn(table, columns) => {
            put_path(b"keys of ", table, out)?;
            out.extend_from_slice(b" on ")?;
            put_names(columns.as_slice(), out)
        }
        Class::Members(role, member) => {
            out.extend_from_slice(b"members of ")?;
            out.extend_from_slice(role.as_bytes())?;
            out.extend_from_slice(b" ")?;
            out.extend_from_slice(member.as_bytes())
        }
    }
}

fn put_mark(alloc: Global, mark: &Mark, out: &mut Vec<u8>) -> Result<(), AllocError> {
    match mark {
        Mark::Key(key) => put_key(alloc, key, out),
        Mark::NewConstraint { table, name, .. } => {
            put_path(b"new constraint ", table, out)?;
            out.extend_from_slice(b" ")?;
            out.extend_from_slice(name.as_bytes())
        }
        Mark::NewIndex { table, name, .. } => {
            put_path(b"new index ", table, out)?;
            out.extend_from_slice(b" ")?;
            out.extend_from_slice(name.as_bytes())
        }
        Mark::Class(class) => put_class(class, out),
    }
}

fn put_marks(alloc: Global, marks: &[Mark], out: &mut Vec<u8>) -> Result<(), AllocError> {
    for (i, mark) in marks.iter().enumerate() {
        out.extend_from_slice(if i > 0 { b", " } else { b" " })?;
        put_mark(alloc, mark, out)?;
    }
    Ok(())
}

// The foreign keys that a script adds: each table with its parent.
fn foreign_keys(alloc: Global, script: &[Located]) -> Result<FkSet, AllocError> {
    let mut keys = FkSet::new(alloc);
    for located in script {
        if let Stmt::AddForeign { q, parent, .. } = &located.stmt {
            keys.put(q.clone()?, parent.clone()?)?;
        }
    }
    Ok(keys)
}

fn put_footprint(
    alloc: Global,
    stmt: &Stmt,
    keys: &FkSet,
    out: &mut Vec<u8>,
) -> Result<(), AllocError> {
    let found = footprint(alloc, stmt, keys)?;
    out.extend_from_slice(b"reads")?;
    put_marks(alloc, found.reads.as_slice(), out)?;
    out.extend_from_slice(b"; writes")?;
    put_marks(alloc, found.writes.as_slice(), out)
}

/// A script: what its last statement reads and writes, beside the foreign keys that the script adds.
pub(crate) fn last_statement(
    alloc: Global,
    text: &[u8],
    out: &mut Vec<u8>,
) -> Result<(), AllocError> {
    let script = match read_stmts(alloc, text) {
        Ok(script) => script,
        Err(ReadStmtsError::Fault(_)) => return out.extend_from_slice(b"?"),
        Err(ReadStmtsError::Memory) => return Err(AllocError),
    };
    let keys = foreign_keys(alloc, &script)?;
    match script.last() {
        Some(located) => put_footprint(alloc, &located.stmt, &keys, out),
        None => out.extend_from_slice(b"?"),
    }
}

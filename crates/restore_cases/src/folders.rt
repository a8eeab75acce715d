//! The folders that a case begins with.
use cat_rows::SysTable;
use dump_ports::MemFiles;
use std::alloc::{AllocError, Global};
use table_cases::Base;

/// The schemas of the empty export.
const SCHEMAS: &[u8] = b"2200\tpublic\t10\t\\N\n";

// A table's text in the empty export with the base's roles, members and databases.
fn bare_text(base: &Base, table: SysTable) -> &[u8] {
    match table {
        SysTable::PgAuthid | SysTable::PgAuthMembers | SysTable::PgDatabase => base.text(table),
        SysTable::PgNamespace => SCHEMAS,
        _ => b"",
    }
}

fn put_rows(alloc: Global, base: &Base, files: &mut MemFiles) -> Result<(), AllocError> {
    for rows in &base.rows {
        let name = format!(in alloc; "S/data/{}.copy", rows.oid)?;
        files.put(name.as_str(), &rows.text)?;
    }
    Ok(())
}

/// Puts the base into the folder `S`.
pub(crate) fn put_source(
    alloc: Global,
    base: &Base,
    files: &mut MemFiles,
) -> Result<(), AllocError> {
    files.put("S/format", b"1\n")?;
    for table in &SysTable::ALL {
        let name = format!(in alloc; "S/{}", table.file_name())?;
        files.put(name.as_str(), base.text(*table))?;
    }
    put_rows(alloc, base, files)
}

/// Puts the empty export, with the base's roles, members and databases, into the folder `D`.
pub(crate) fn put_target(
    alloc: Global,
    base: &Base,
    files: &mut MemFiles,
) -> Result<(), AllocError> {
    files.put("D/format", b"1\n")?;
    for table in &SysTable::ALL {
        let name = format!(in alloc; "D/{}", table.file_name())?;
        files.put(name.as_str(), bare_text(base, *table))?;
    }
    Ok(())
}

// Adds a table without rows.
fn add_empty(alloc: Global, base: &mut Base, oid: &str) -> Result<bool, AllocError> {
    let said = format!(in alloc; "rows {oid} ")?;
    base.add(alloc, said.as_str())
}

/// Adds what a line says of the base, and tells whether it says so; `None` where it speaks of nothing of it. `base TABLE
/// TEXT` is the text of a system table, `base rows OID TEXT` that of the rows of a table, and `empty OID` a table without
/// rows.
pub(crate) fn add_line(
    alloc: Global,
    base: &mut Base,
    line: &str,
) -> Result<Option<bool>, AllocError> {
    match line.split_once(' ') {
        Some(("base", said)) => Ok(Some(base.add(alloc, said)?)),
        Some(("empty", oid)) => Ok(Some(add_empty(alloc, base, oid)?)),
        _ => Ok(None),
    }
}

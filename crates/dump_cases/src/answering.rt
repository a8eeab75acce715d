//! The table of contents of a dump.
use crate::scripts::put_script;
use archive_cases::put_entry;
use cat_names::DataSet;
use dump_choices::entries;
use dump_toc::TocError;
use graph_cases::select_of;
use graph_parts::ObjId;
use obj_graph::{Select, SelectFault};
use std::alloc::{AllocError, Global};
use toc_entry::Entry;
use well_formed::WellFormed;

/// What a case asks of a dump.
#[derive(Clone, Copy)]
enum DumpKind {
    /// Its entries with all that they hold.
    Entries,
    /// Its entries from the fifth on, each with its number, kind, name and what it depends on.
    List,
    /// Its plain script.
    Script,
}

fn put_entries(alloc: Global, entries: &[Entry], out: &mut Vec<u8>) -> Result<(), AllocError> {
    for (i, entry) in entries.iter().enumerate() {
        if i > 0 {
            out.extend_from_slice(b" / ")?;
        }
        put_entry(alloc, entry, out)?;
    }
    Ok(())
}

fn put_depends(alloc: Global, ids: &[u32], out: &mut Vec<u8>) -> Result<(), AllocError> {
    out.extend_from_slice(b" (")?;
    for (i, id) in ids.iter().enumerate() {
        let between = if i > 0 { " " } else { "" };
        out.extend_from_slice(format!(in alloc; "{between}{id}")?.as_bytes())?;
    }
    out.extend_from_slice(b")")
}

fn put_named(alloc: Global, entry: &Entry, out: &mut Vec<u8>) -> Result<(), AllocError> {
    out.extend_from_slice(format!(in alloc; "{} ", entry.dump_id)?.as_bytes())?;
    out.extend_from_slice(entry.desc.as_bytes())?;
    out.extend_from_slice(b" ")?;
    out.extend_from_slice(entry.tag.as_bytes())?;
    put_depends(alloc, entry.depends.as_slice(), out)
}

fn put_list(alloc: Global, entries: &[Entry], out: &mut Vec<u8>) -> Result<(), AllocError> {
    if entries.len() < 5 {
        return out.extend_from_slice(b"nothing");
    }
    for (i, entry) in entries.iter().enumerate() {
        if i > 4 {
            out.extend_from_slice(b", ")?;
        }
        if i > 3 {
            put_named(alloc, entry, out)?;
        }
    }
    Ok(())
}

// The ids of the objects along a loop.
fn put_loop(alloc: Global, path: &[ObjId], out: &mut Vec<u8>) -> Result<(), AllocError> {
    out.extend_from_slice(b"loop")?;
    for id in path {
        let shown = format!(in alloc; " ({}, {})", id.class, id.oid)?;
        out.extend_from_slice(shown.as_bytes())?;
    }
    Ok(())
}

fn put_fault(alloc: Global, fault: SelectFault, out: &mut Vec<u8>) -> Result<(), AllocError> {
    let place = match fault {
        SelectFault::NoSchemas(place) | SelectFault::NoTables(place) => place,
    };
    out.extend_from_slice(format!(in alloc; "no match for pattern {place}")?.as_bytes())
}

fn put_error(alloc: Global, error: &TocError, out: &mut Vec<u8>) -> Result<(), AllocError> {
    match error {
        TocError::NoMatch(fault) => put_fault(alloc, *fault, out),
        TocError::Loop(path) => put_loop(alloc, path, out),
        TocError::TooMany(count) => {
            out.extend_from_slice(format!(in alloc; "{count} entries")?.as_bytes())
        }
        TocError::Memory => Err(AllocError),
    }
}

fn put_made(
    alloc: Global,
    kind: DumpKind,
    cat: &WellFormed,
    data: &DataSet,
    select: &Select,
    entries: Vec<Entry>,
    out: &mut Vec<u8>,
) -> Result<(), AllocError> {
    match kind {
        DumpKind::Entries => put_entries(alloc, &entries, out),
        DumpKind::List => put_list(alloc, &entries, out),
        DumpKind::Script => put_script(alloc, cat, data, select.owners, entries, out),
    }
}

fn put_dump(
    alloc: Global,
    kind: DumpKind,
    cat: &WellFormed,
    data: &DataSet,
    select: &Select,
    out: &mut Vec<u8>,
) -> Result<(), AllocError> {
    match entries(alloc, cat, select) {
        Ok(entries) => put_made(alloc, kind, cat, data, select, entries, out),
        Err(error) => put_error(alloc, &error, out),
    }
}

// What a case asks of a dump, by its word.
fn kind_of(word: &str) -> Option<DumpKind> {
    match word {
        "entries" => Some(DumpKind::Entries),
        "list" => Some(DumpKind::List),
        "script" => Some(DumpKind::Script),
        _ => None,
    }
}

/// Appends what a line asks of a dump; or why there is none. It is `entries`, `list` or `script` and the options of the dump:
/// the entries with all that they hold; those from the fifth on, each with its number, kind, name and what it depends on; or
/// the plain script with the rows of tables.
pub fn dumped(
    alloc: Global,
    cat: &WellFormed,
    data: &DataSet,
    line: &str,
    out: &mut Vec<u8>,
) -> Result<(), AllocError> {
    let Some((word, options)) = line.split_once(' ') else {
        return out.extend_from_slice(b"?");
    };
    let Some(kind) = kind_of(word) else {
        return out.extend_from_slice(b"?");
    };
    match select_of(alloc, options)? {
        Some(select) => put_dump(alloc, kind, cat, data, &select, out),
        None => out.extend_from_slice(b"?"),
    }
}

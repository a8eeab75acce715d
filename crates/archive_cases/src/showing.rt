//! How heads and entries are shown.
use copy_text::Text;
use std::alloc::{AllocError, Global};
use toc_entry::{Entry, Extra, Head};

/// Appends a text in quotes, or `null`.
pub(crate) fn put_text(text: &Option<Text>, out: &mut Vec<u8>) -> Result<(), AllocError> {
    match text {
        Some(text) => {
            out.push(b'\'')?;
            out.extend_from_slice(text.as_bytes())?;
            Ok(out.push(b'\'')?)
        }
        None => out.extend_from_slice(b"null"),
    }
}

fn put_named(name: &str, text: &Option<Text>, out: &mut Vec<u8>) -> Result<(), AllocError> {
    out.extend_from_slice(name.as_bytes())?;
    put_text(text, out)
}

fn put_moment(alloc: Global, head: &Head, out: &mut Vec<u8>) -> Result<(), AllocError> {
    let at = &head.moment;
    let (sec, min, hour, mday) = (at.sec, at.min, at.hour, at.mday);
    let (mon, year, isdst) = (at.mon, at.year, at.isdst);
    let shown = format!(in alloc; "moment ({sec}, {min}, {hour}, {mday}, {mon}, {year}, {isdst})")?;
    out.extend_from_slice(shown.as_bytes())
}

fn put_names(alloc: Global, head: &Head, out: &mut Vec<u8>) -> Result<(), AllocError> {
    let (dbname, server, dumper) = (
        head.dbname.as_str(),
        head.server.as_str(),
        head.dumper.as_str(),
    );
    let shown = format!(in alloc; " dbname '{dbname}' server '{server}' dumper '{dumper}'")?;
    out.extend_from_slice(shown.as_bytes())
}

/// Appends a head.
pub(crate) fn put_head(alloc: Global, head: &Head, out: &mut Vec<u8>) -> Result<(), AllocError> {
    let (revision, format) = (head.revision, head.format);
    let shown = format!(in alloc; "head revision {revision} format {format} ")?;
    out.extend_from_slice(shown.as_bytes())?;
    put_moment(alloc, head, out)?;
    put_names(alloc, head, out)
}

fn put_identity(alloc: Global, entry: &Entry, out: &mut Vec<u8>) -> Result<(), AllocError> {
    let (id, tableoid, oid) = (entry.dump_id, entry.tableoid, entry.oid);
    let rows = if entry.has_rows { " rows" } else { "" };
    let shown = format!(in alloc; "entry {id}{rows} tableoid {tableoid} oid {oid}")?;
    out.extend_from_slice(shown.as_bytes())
}

fn put_labels(alloc: Global, entry: &Entry, out: &mut Vec<u8>) -> Result<(), AllocError> {
    let (tag, desc, section) = (entry.tag.as_str(), entry.desc.as_str(), entry.section);
    let shown = format!(in alloc; " tag '{tag}' desc '{desc}' section {section}")?;
    out.extend_from_slice(shown.as_bytes())
}

fn put_statements(entry: &Entry, out: &mut Vec<u8>) -> Result<(), AllocError> {
    put_named(" defn ", &entry.defn, out)?;
    put_named(" drop ", &entry.drop_stmt, out)?;
    put_named(" copy ", &entry.copy_stmt, out)
}

fn put_setting(entry: &Entry, out: &mut Vec<u8>) -> Result<(), AllocError> {
    put_named(" namespace ", &entry.namespace, out)?;
    put_named(" tablespace ", &entry.tablespace, out)?;
    put_named(" tableam ", &entry.tableam, out)?;
    put_named(" owner ", &entry.owner, out)
}

fn put_depends(alloc: Global, ids: &[u32], out: &mut Vec<u8>) -> Result<(), AllocError> {
    out.extend_from_slice(b" depends (")?;
    for (i, id) in ids.iter().enumerate() {
        let comma = if i > 0 { ", " } else { "" };
        out.extend_from_slice(format!(in alloc; "{comma}{id}")?.as_bytes())?;
    }
    Ok(out.push(b')')?)
}

fn put_extra(alloc: Global, extra: &Extra, out: &mut Vec<u8>) -> Result<(), AllocError> {
    let shown = match extra {
        Extra::Place { state, offset } => format!(in alloc;
            " place state {state} offset {offset}"
        )?,
        Extra::File(name) => format!(in alloc; " file '{}'", name.as_str())?,
    };
    out.extend_from_slice(shown.as_bytes())
}

/// Appends an entry.
pub fn put_entry(alloc: Global, entry: &Entry, out: &mut Vec<u8>) -> Result<(), AllocError> {
    put_identity(alloc, entry, out)?;
    put_labels(alloc, entry, out)?;
    put_statements(entry, out)?;
    put_setting(entry, out)?;
    put_depends(alloc, entry.depends.as_slice(), out)?;
    put_extra(alloc, &entry.extra, out)
}

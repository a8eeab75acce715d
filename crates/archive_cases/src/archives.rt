//! Cases of whole archives.
use crate::changes::changed;
use crate::faults::{put_archive_error, put_directory_fault};
use crate::hexadecimal::bytes_of;
use crate::showing::{put_entry, put_head};
use dump_ports::MemFiles;
use fmt_custom::CustomReader;
use fmt_directory::{DirFault, DirReader};
use std::alloc::{AllocError, Global};
use toc_entry::Entry;

/// What stands between parts of a line and of its answer.
const BETWEEN: &str = " / ";

/// The format in which an archive's bytes are read.
#[derive(Clone, Copy)]
enum Format {
    /// A custom archive.
    Custom,
    /// The file `toc.dat` of a directory.
    Directory,
}

fn format_of(word: &str) -> Option<Format> {
    match word {
        "custom" => Some(Format::Custom),
        "toc" => Some(Format::Directory),
        _ => None,
    }
}

// The archive in a folder of which `toc.dat` has these bytes.
fn directory(alloc: Global, bytes: &[u8]) -> Result<DirReader, DirFault> {
    let mut files = MemFiles::new(alloc, Vec::new(alloc));
    match files.put("d/toc.dat", bytes) {
        Ok(()) => DirReader::read(alloc, &mut files, "d"),
        Err(_) => Err(DirFault::Memory),
    }
}

fn put_entries(alloc: Global, entries: &[Entry], out: &mut Vec<u8>) -> Result<(), AllocError> {
    for entry in entries {
        out.extend_from_slice(BETWEEN.as_bytes())?;
        put_entry(alloc, entry, out)?;
    }
    Ok(())
}

// The rows of the entry with a dump id, where it has rows.
fn put_rows(
    alloc: Global,
    reader: &CustomReader<'_>,
    id: u32,
    out: &mut Vec<u8>,
) -> Result<(), AllocError> {
    let Some(pieces) = reader.pieces(id) else {
        return Ok(());
    };
    out.extend_from_slice(format!(in alloc; "{BETWEEN}rows {id} '")?.as_bytes())?;
    for piece in pieces {
        out.extend_from_slice(piece)?;
    }
    Ok(out.push(b'\'')?)
}

fn put_custom(
    alloc: Global,
    reader: &CustomReader<'_>,
    out: &mut Vec<u8>,
) -> Result<(), AllocError> {
    put_head(alloc, reader.head(), out)?;
    put_entries(alloc, reader.entries(), out)?;
    for entry in reader.entries() {
        put_rows(alloc, reader, entry.dump_id, out)?;
    }
    Ok(())
}

fn put_directory(alloc: Global, reader: &DirReader, out: &mut Vec<u8>) -> Result<(), AllocError> {
    put_head(alloc, reader.head(), out)?;
    put_entries(alloc, reader.entries(), out)
}

// What an archive holds, or its fault.
fn held(alloc: Global, format: Format, bytes: &[u8], out: &mut Vec<u8>) -> Result<(), AllocError> {
    match format {
        Format::Custom => match CustomReader::read(alloc, bytes) {
            Ok(reader) => put_custom(alloc, &reader, out),
            Err(error) => put_archive_error(alloc, error, out),
        },
        Format::Directory => match directory(alloc, bytes) {
            Ok(reader) => put_directory(alloc, &reader, out),
            Err(fault) => put_directory_fault(alloc, fault, out),
        },
    }
}

// Whether an archive reads, or its fault.
fn verdict(
    alloc: Global,
    format: Format,
    bytes: &[u8],
    out: &mut Vec<u8>,
) -> Result<(), AllocError> {
    match format {
        Format::Custom => match CustomReader::read(alloc, bytes) {
            Ok(_) => out.extend_from_slice(b"reads"),
            Err(error) => put_archive_error(alloc, error, out),
        },
        Format::Directory => match directory(alloc, bytes) {
            Ok(_) => out.extend_from_slice(b"reads"),
            Err(fault) => put_directory_fault(alloc, fault, out),
        },
    }
}

// The verdict on each first part of an archive, but for all of it.
fn each_cut(
    alloc: Global,
    format: Format,
    bytes: &[u8],
    out: &mut Vec<u8>,
) -> Result<(), AllocError> {
    for count in 0..bytes.len() {
        if count > 0 {
            out.extend_from_slice(BETWEEN.as_bytes())?;
        }
        verdict(alloc, format, &bytes[..count], out)?;
    }
    Ok(())
}

fn with_change(
    alloc: Global,
    format: Format,
    bytes: &[u8],
    change: &str,
    out: &mut Vec<u8>,
) -> Result<(), AllocError> {
    if change == "cuts" {
        return each_cut(alloc, format, bytes, out);
    }
    match changed(alloc, bytes, change)? {
        Some(bytes) => verdict(alloc, format, &bytes, out),
        None => out.extend_from_slice(b"?"),
    }
}

fn with_changes(
    alloc: Global,
    format: Format,
    bytes: &[u8],
    changes: &str,
    out: &mut Vec<u8>,
) -> Result<(), AllocError> {
    for (i, change) in changes.split(BETWEEN).enumerate() {
        if i > 0 {
            out.extend_from_slice(BETWEEN.as_bytes())?;
        }
        with_change(alloc, format, bytes, change, out)?;
    }
    Ok(())
}

/// The answer to a line of whole archives.
pub(crate) fn answer(alloc: Global, line: &str, out: &mut Vec<u8>) -> Result<(), AllocError> {
    let (archive, changes) = match line.split_once(BETWEEN) {
        Some((archive, changes)) => (archive, Some(changes)),
        None => (line, None),
    };
    let Some((word, digits)) = archive.split_once(' ') else {
        return out.extend_from_slice(b"?");
    };
    let (Some(format), Some(bytes)) = (format_of(word), bytes_of(alloc, digits)?) else {
        return out.extend_from_slice(b"?");
    };
    match changes {
        Some(changes) => with_changes(alloc, format, &bytes, changes, out),
        None => held(alloc, format, &bytes, out),
    }
}

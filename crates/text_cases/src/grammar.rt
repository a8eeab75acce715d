//! Cases of parts of statements: how many tokens are read and what they say, or where reading stops.
use crate::escapes::decoded;
use crate::kind::Part;
use crate::statements::put_spelling;
use cat_model::{Stmt, TypeName};
use copy_text::Text;
use ddl_admin::{alter_role, comment_on, create_database, create_role, granted, revoked};
use ddl_pieces::{Pieces, ReadError, collect, whole_number};
use ddl_read::meta_line;
use ddl_scripts::{MetaError, RowsError, rows_behind};
use std::alloc::{AllocError, Global};

fn put_stop(alloc: Global, error: ReadError, out: &mut Vec<u8>) -> Result<(), AllocError> {
    match error {
        ReadError::Halted(halt) => {
            let why = if halt.long { "too long" } else { "stops" };
            out.extend_from_slice(format!(in alloc; "{why} at {}", halt.at)?.as_bytes())
        }
        ReadError::Memory => Err(AllocError),
    }
}

fn put_count(alloc: Global, count: usize, out: &mut Vec<u8>) -> Result<(), AllocError> {
    out.extend_from_slice(format!(in alloc; "{count} ")?.as_bytes())
}

fn put_type(of: &TypeName, out: &mut Vec<u8>) -> Result<(), AllocError> {
    match of {
        TypeName::Words(words) => out.extend_from_slice(words.as_bytes()),
        TypeName::Path(path) => {
            out.extend_from_slice(path.schema.as_bytes())?;
            out.extend_from_slice(b" . ")?;
            out.extend_from_slice(path.name.as_bytes())
        }
    }
}

fn type_read(
    alloc: Global,
    read: Result<(TypeName, usize), ReadError>,
    out: &mut Vec<u8>,
) -> Result<(), AllocError> {
    match read {
        Ok((of, count)) => {
            put_count(alloc, count, out)?;
            put_type(&of, out)
        }
        Err(error) => put_stop(alloc, error, out),
    }
}

fn text_read(
    alloc: Global,
    read: Result<(Text, usize), ReadError>,
    out: &mut Vec<u8>,
) -> Result<(), AllocError> {
    match read {
        Ok((text, count)) => {
            put_count(alloc, count, out)?;
            out.extend_from_slice(text.as_bytes())
        }
        Err(error) => put_stop(alloc, error, out),
    }
}

fn both_read(
    alloc: Global,
    read: Result<((Text, bool), usize), ReadError>,
    out: &mut Vec<u8>,
) -> Result<(), AllocError> {
    match read {
        Ok(((text, not_null), count)) => {
            put_count(alloc, count, out)?;
            out.extend_from_slice(text.as_bytes())?;
            out.extend_from_slice(if not_null { b", not null" } else { b"" })
        }
        Err(error) => put_stop(alloc, error, out),
    }
}

fn number_read(
    alloc: Global,
    read: Result<(i64, usize), ReadError>,
    out: &mut Vec<u8>,
) -> Result<(), AllocError> {
    match read {
        Ok((number, count)) => {
            out.extend_from_slice(format!(in alloc; "{count} {number}")?.as_bytes())
        }
        Err(error) => put_stop(alloc, error, out),
    }
}

// Keeps a statement that was read, and gives where reading ended.
fn keep(read: Result<(Stmt, usize), ReadError>, found: &mut Vec<Stmt>) -> Result<usize, ReadError> {
    let (stmt, count) = read?;
    found.push(stmt)?;
    Ok(count)
}

fn stmt_read(
    alloc: Global,
    read: Result<(Stmt, usize), ReadError>,
    out: &mut Vec<u8>,
) -> Result<(), AllocError> {
    let mut found = Vec::new(alloc);
    match keep(read, &mut found) {
        Ok(count) => put_counted(alloc, &found, count, out),
        Err(error) => put_stop(alloc, error, out),
    }
}

fn put_counted(
    alloc: Global,
    found: &[Stmt],
    count: usize,
    out: &mut Vec<u8>,
) -> Result<(), AllocError> {
    put_count(alloc, count, out)?;
    put_found(found, out)
}

fn of_pieces(
    alloc: Global,
    part: Part,
    pieces: &Pieces<'_>,
    out: &mut Vec<u8>,
) -> Result<(), AllocError> {
    match part {
        Part::Type => type_read(alloc, pieces.type_name(alloc, 0), out),
        Part::Default => text_read(alloc, pieces.default_text(alloc, 0), out),
        Part::DefaultAndNull => both_read(alloc, pieces.default_and_null(alloc, 0), out),
        Part::Number => number_read(alloc, whole_number(pieces, 0), out),
        Part::Comment => stmt_read(alloc, comment_on(alloc, pieces, 0), out),
        Part::CreateRole => stmt_read(alloc, create_role(alloc, pieces, 0), out),
        Part::AlterRole => stmt_read(alloc, alter_role(alloc, pieces, 0), out),
        Part::CreateDatabase => stmt_read(alloc, create_database(alloc, pieces, 0), out),
        Part::Grant => stmt_read(alloc, granted(alloc, pieces, 0), out),
        Part::Revoke => stmt_read(alloc, revoked(alloc, pieces, 0), out),
        Part::CopyRows | Part::Line => out.extend_from_slice(b"?"),
    }
}

// The rows behind a place, and where they end.
fn copied(alloc: Global, line: &str, out: &mut Vec<u8>) -> Result<(), AllocError> {
    let Some((place, text)) = line.split_once(' ') else {
        return out.extend_from_slice(b"?");
    };
    let (Ok(place), Some(text)) = (place.parse::<usize>(), decoded(alloc, text)?) else {
        return out.extend_from_slice(b"?");
    };
    if place > text.len() {
        return out.extend_from_slice(b"?");
    }
    match rows_behind(alloc, &text, place) {
        Ok(rows) => {
            put_count(alloc, rows.end, out)?;
            out.extend_from_slice(&rows.rows)
        }
        Err(RowsError::Unknown(at)) => {
            out.extend_from_slice(format!(in alloc; "no rows at {at}")?.as_bytes())
        }
        Err(RowsError::Memory) => Err(AllocError),
    }
}

// The statement that a line with a backslash says, if it says one.
fn said_into(alloc: Global, line: &[u8], found: &mut Vec<Stmt>) -> Result<(), MetaError> {
    if let Some(stmt) = meta_line(alloc, line)? {
        found.push(stmt)?;
    }
    Ok(())
}

// What a line with a backslash says.
fn said(alloc: Global, line: &[u8], out: &mut Vec<u8>) -> Result<(), AllocError> {
    let mut found = Vec::new(alloc);
    match said_into(alloc, line, &mut found) {
        Ok(()) => put_found(&found, out),
        Err(MetaError::Unknown(_)) => out.extend_from_slice(b"unknown"),
        Err(MetaError::LongName(_)) => out.extend_from_slice(b"too long"),
        Err(MetaError::Memory) => Err(AllocError),
    }
}

fn put_found(found: &[Stmt], out: &mut Vec<u8>) -> Result<(), AllocError> {
    match found.first() {
        Some(stmt) => put_spelling(stmt, out),
        None => out.extend_from_slice(b"nothing"),
    }
}

/// A part of a statement.
pub(crate) fn part(
    alloc: Global,
    part: Part,
    line: &str,
    out: &mut Vec<u8>,
) -> Result<(), AllocError> {
    if part == Part::CopyRows {
        return copied(alloc, line, out);
    }
    let Some(text) = decoded(alloc, line)? else {
        return out.extend_from_slice(b"?");
    };
    if part == Part::Line {
        return said(alloc, &text, out);
    }
    let run = collect(alloc, &text, 0)?;
    let pieces = Pieces::new(&text, run.pieces);
    of_pieces(alloc, part, &pieces, out)
}

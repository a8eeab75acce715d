//! Files that a case writes, and archives that it writes again.
use dump_ports::MemFiles;
use std::alloc::{AllocError, Global};
use text_cases::decoded;
use toc_entry::Entry;
use toc_layout::{ReadEntryError, ReadHeadError, read_entry, read_head, read_int};

/// Where an entry of an archive stands.
#[derive(Clone, Copy)]
struct Span {
    id: u32,
    start: usize,
    end: usize,
}

// The place behind the head of an archive.
fn behind_head(alloc: Global, bytes: &[u8]) -> Result<Option<usize>, AllocError> {
    match read_head(alloc, bytes) {
        Ok((head, at)) => {
            drop(head);
            Ok(Some(at))
        }
        Err(ReadHeadError::Memory) => Err(AllocError),
        Err(_) => Ok(None),
    }
}

fn span_of(entry: Entry, start: usize, end: usize) -> Span {
    let id = entry.dump_id;
    drop(entry);
    Span { id, start, end }
}

// Where the entry at this place stands.
fn span_at(alloc: Global, bytes: &[u8], start: usize) -> Result<Option<Span>, AllocError> {
    match read_entry(alloc, bytes, start, false) {
        Ok((entry, end)) => Ok(Some(span_of(entry, start, end))),
        Err(ReadEntryError::Memory) => Err(AllocError),
        Err(_) => Ok(None),
    }
}

// Where so many entries stand, the first of them at this place.
fn spans_from(
    alloc: Global,
    bytes: &[u8],
    start: usize,
    count: i64,
) -> Result<Option<Vec<Span>>, AllocError> {
    let mut spans = Vec::new(alloc);
    let mut at = start;
    for _ in 0..count {
        let Some(span) = span_at(alloc, bytes, at)? else {
            return Ok(None);
        };
        spans.push(span)?;
        at = span.end;
    }
    Ok(Some(spans))
}

// Where the entries of a custom archive stand.
fn spans_of(alloc: Global, bytes: &[u8]) -> Result<Option<Vec<Span>>, AllocError> {
    let Some(at) = behind_head(alloc, bytes)? else {
        return Ok(None);
    };
    match read_int(bytes, at) {
        Ok((count, start)) => spans_from(alloc, bytes, start, count),
        Err(_) => Ok(None),
    }
}

fn span_named(spans: &[Span], word: &str) -> Option<Span> {
    let id = word.parse::<u32>().ok()?;
    spans.iter().copied().find(|span| span.id == id)
}

// Appends the bytes of the entries with these ids, one after another, and tells how many there are.
fn put_entries(
    bytes: &[u8],
    spans: &[Span],
    ids: &str,
    out: &mut Vec<u8>,
) -> Result<Option<usize>, AllocError> {
    let mut count = 0_usize;
    for word in ids.split(' ') {
        let Some(span) = span_named(spans, word) else {
            return Ok(None);
        };
        let entry = bytes.get(span.start..span.end).unwrap_or(&[]);
        out.extend_from_slice(entry)?;
        count = count.saturating_add(1);
    }
    Ok(Some(count))
}

// An archive with the entries that stand at these places in the order of these ids, all of them.
fn in_order(
    alloc: Global,
    bytes: &[u8],
    spans: &[Span],
    ids: &str,
) -> Result<Option<Vec<u8>>, AllocError> {
    let (Some(first), Some(last)) = (spans.first(), spans.last()) else {
        return Ok(None);
    };
    let front = bytes.get(..first.start).unwrap_or(&[]);
    let mut written = front.to_vec(alloc)?;
    if put_entries(bytes, spans, ids, &mut written)? != Some(spans.len()) {
        return Ok(None);
    }
    written.extend_from_slice(bytes.get(last.end..).unwrap_or(&[]))?;
    Ok(Some(written))
}

fn ordered(alloc: Global, bytes: &[u8], ids: &str) -> Result<Option<Vec<u8>>, AllocError> {
    match spans_of(alloc, bytes)? {
        Some(spans) => in_order(alloc, bytes, &spans, ids),
        None => Ok(None),
    }
}

fn cut(alloc: Global, bytes: &[u8], count: &str) -> Result<Option<Vec<u8>>, AllocError> {
    let Ok(count) = count.parse::<usize>() else {
        return Ok(None);
    };
    match bytes.get(..count) {
        Some(front) => Ok(Some(front.to_vec(alloc)?)),
        None => Ok(None),
    }
}

fn with_byte(alloc: Global, bytes: &[u8], said: &str) -> Result<Option<Vec<u8>>, AllocError> {
    let Some((place, value)) = said.split_once(' ') else {
        return Ok(None);
    };
    let (Ok(place), Ok(value)) = (place.parse::<usize>(), value.parse::<u8>()) else {
        return Ok(None);
    };
    let mut changed = bytes.to_vec(alloc)?;
    if place >= changed.len() {
        return Ok(None);
    }
    changed[place] = value;
    Ok(Some(changed))
}

/// What a step does to a file.
#[derive(Clone, Copy)]
enum Change {
    File,
    Cut,
    Byte,
    Order,
}

fn change_of(word: &str) -> Option<Change> {
    match word {
        "file" => Some(Change::File),
        "cut" => Some(Change::Cut),
        "byte" => Some(Change::Byte),
        "order" => Some(Change::Order),
        _ => None,
    }
}

// The text of a file once it is changed.
fn changed(
    alloc: Global,
    change: Change,
    bytes: &[u8],
    said: &str,
) -> Result<Option<Vec<u8>>, AllocError> {
    match change {
        Change::File => decoded(alloc, said),
        Change::Cut => cut(alloc, bytes, said),
        Change::Byte => with_byte(alloc, bytes, said),
        Change::Order => ordered(alloc, bytes, said),
    }
}

fn change_file(
    alloc: Global,
    files: &mut MemFiles,
    change: Change,
    said: &str,
) -> Result<bool, AllocError> {
    let Some((name, rest)) = said.split_once(' ') else {
        return Ok(false);
    };
    let bytes = files.text(name).unwrap_or(&[]);
    match changed(alloc, change, bytes, rest)? {
        Some(text) => {
            files.put(name, &text)?;
            Ok(true)
        }
        None => Ok(false),
    }
}

/// Writes a file where the step says so, and tells whether it could be written; `None` where the step is none of these.
pub(crate) fn change_archive(
    alloc: Global,
    files: &mut MemFiles,
    step: &str,
) -> Result<Option<bool>, AllocError> {
    let Some((word, said)) = step.split_once(' ') else {
        return Ok(None);
    };
    match change_of(word) {
        Some(change) => Ok(Some(change_file(alloc, files, change, said)?)),
        None => Ok(None),
    }
}

//! The rows of a COPY.
ghost use Rattle.std.specs.Prelude.{◌≡◌, ◌≤◌, ◌+◌, ◌++◌, ◌∷◌, [], min, length, drop, slice_range, IfOk};
ghost use Rattle.std.specs.List.{prefix_len};
ghost use Rattle.copy_text.specs.Marks.{newline};
ghost use Rattle.ddl_scripts.specs.CopyRows.{Gives, is_between, rows_at, rows_behind, rows_from, seen};
ghost use Rattle.ddl_scripts.specs.declared.copy_rows.RowsError.TheVariants as errors;

use copy_text::{Line, next_line};
use std::alloc::{AllocError, AllocFailed, Global};
use thiserror::Error;

/// The rows of a COPY, as a text of lines.
#[derive(Drop)]
pub struct Rows {
    /// The lines, each with its line feed; a last row without one was given one.
    pub rows: Vec<u8>,
    /// The place behind the rows and behind the line `\.` that ends them, if it is there.
    pub end: usize,
}

/// Why no rows were read.
#[derive(Debug, Drop, Error)]
pub enum RowsError {
    /// The byte at this place is neither blank nor a line feed.
    #[error("no rows begin at byte {0}")]
    Unknown(usize),
    /// Memory ran out.
    #[error("out of memory")]
    Memory,
}

impl From<AllocError> for RowsError {
    ghost from_gives = { λ _ error. error ≡ errors.Memory };

    fn from(_error: AllocError) -> RowsError {
        RowsError::Memory
    }
}

impl<T: Drop> From<AllocFailed<T>> for RowsError {
    ghost from_gives = { λ _ error. error ≡ errors.Memory };

    fn from(_error: AllocFailed<T>) -> RowsError {
        RowsError::Memory
    }
}

/// Whether the byte may stand between a COPY's semicolon and its line feed.
#[tactic(auto, unfolding(crate::specs::CopyRows::is_between))]
fn is_between(byte: u8) -> bool
    ensures { result ≡ is_between byte }
{
    matches!(byte, b' ' | b'\t' | b'\r')
}

/// How many such bytes the text begins with.
fn blanks_len(text: &[u8]) -> usize
    ensures len { result ≡ prefix_len is_between text.now }
    ensures high { result ≤ length text.now }
{
    text.iter().take_while(|b| is_between(**b)).count()
}

/// The rows between two places, with what is left of the line that ends them.
fn rows_between(alloc: Global, text: &[u8], from: usize, at: usize) -> Result<Rows, AllocError>
    requires low { from ≤ at }
    requires high { at ≤ length text.now }
    ensures { IfOk result (λ r. seen r ≡ record { rows = slice_range text.now from at; end = min (at + 3) (length text.now) }) }
{
    let rows = text[from..at].to_vec(alloc)?;
    let left = text.len() - at;
    let end = if left < 3 { text.len() } else { at + 3 };
    Ok(Rows { rows, end })
}

/// Rows whose last has no line feed, with one.
fn with_feed(alloc: Global, text: &[u8]) -> Result<Vec<u8>, AllocError>
    ensures { IfOk result (λ rows. rows.items ≡ text.now ++ newline ∷ []) }
{
    let mut rows = text.to_vec(alloc)?;
    rows.push(b'\n')?;
    Ok(rows)
}

/// The rows that begin at a place.
fn rows_from(alloc: Global, text: &[u8], from: usize) -> Result<Rows, AllocError>
    requires { from ≤ length text.now }
    ensures exact { IfOk result (λ r. rows_from text.now from ≡ seen r) }
    ensures within { IfOk result (λ r. (from ≤ r.end) × (r.end ≤ length text.now)) }
{
    let mut at = from;
    'lines: loop {
        match next_line(text, at) {
            Line::Row { end, next, .. } => {
                if end == text.len() {
                    let rows = with_feed(alloc, &text[from..])?;
                    return Ok(Rows { rows, end });
                }
                at = next;
            }
            Line::Stop => return rows_between(alloc, text, from, at),
            Line::End => return rows_between(alloc, text, from, at),
        }
    }
}

/// The rows at a place where a line feed stands before them, or nothing at all.
#[tactic(auto, unfolding(crate::specs::CopyRows::rows_at))]
fn rows_at(alloc: Global, text: &[u8], at: usize) -> Result<Rows, RowsError>
    requires { at ≤ length text.now }
    ensures exact { Gives result (rows_at text.now at) }
    ensures within { IfOk result (λ r. (at ≤ r.end) × (r.end ≤ length text.now)) }
{
    if at == text.len() {
        return Ok(Rows {
            rows: Vec::new(alloc),
            end: at,
        });
    }
    if text[at] != b'\n' {
        return Err(RowsError::Unknown(at));
    }
    Ok(rows_from(alloc, text, at + 1)?)
}

/// The rows of a COPY whose semicolon ends at a place of the text.
///
/// They are the lines behind the first line feed, up to the line `\.` or to the end of the text; spaces, tabs and
/// carriage returns may stand before that line feed. There are none where the text ends there. They are copied in one
/// run. `Unknown` is the first byte that stands there and may not.
/// <https://www.postgresql.org/docs/16/sql-copy.html>
#[tactic(auto, unfolding(crate::specs::CopyRows::rows_behind))]
pub fn rows_behind(alloc: Global, text: &[u8], at: usize) -> Result<Rows, RowsError>
    requires { at ≤ length text.now }
    ensures exact { Gives result (rows_behind text.now at) }
    ensures within { IfOk result (λ r. (at ≤ r.end) × (r.end ≤ length text.now)) }
{
    let blanks = blanks_len(&text[at..]);
    rows_at(alloc, text, at + blanks)
}

//! The whole lines of a text, spelled anew.
ghost use Rattle.std.specs.Prelude.{◌≡◌, ◌≢◌, ◌+◌, ◌-◌, ◌≤◌, ◌<◌, ◌^◌, ℕ, true, false, [], ◌∷◌, ◌++◌, All, List, length, take, Some, Err, IfOk, OnOk, IfNone, IfSome};
ghost use Rattle.std.specs.List.{list_all};
ghost use Rattle.copy_text.specs.Marks.{newline};
ghost use Rattle.copy_text.specs.Reading.{row_of};
ghost use Rattle.data_rows.specs.Rows.{read_lines};
ghost use Rattle.dump_files.specs.Own.{is_own_or_newline};
ghost use Rattle.dump_files.specs.Readings.{coming, behind, IsOwnRun};
ghost use Rattle.dump_files.specs.Stops.{TellsFault};

use crate::row::{are_own_lines, has_columns, spell_line};
use data_rows::{CheckRowsError, RowsFault};
use memchr::memchr;
use std::alloc::{AllocError, Global};

// The whole line that ends the rows.
const END_MARK: &[u8; 2] = b"\\.";

// What stands behind the rows of an entry.
const ENDING: &[u8; 5] = b"\\.\n\n\n";

/// The first line of a text that ends in it, without its newline, and the text behind it.
fn split_whole(text: &[u8]) -> Option<(&[u8], &[u8])>
    ensures none { IfNone result (All (λ b. b ≢ newline) text.now) }
    ensures some { IfSome result (λ x. text.now ≡ x.0.now ++ newline ∷ x.1.now) }
    ensures one_line { IfSome result (λ x. All (λ b. b ≢ newline) x.0.now) }
{
    let at = memchr(b'\n', text)?;
    let (line, rest) = text.split_at(at);
    let (_, behind) = rest.split_at(1);
    Some((line, behind))
}

/// Appends the row of a whole line, which has this many rows before it, or the ending where the line ends the rows.
pub(crate) fn spell_whole(
    alloc: Global,
    line: &[u8],
    columns: usize,
    rows: u64,
    out: &mut Vec<u8>,
) -> Result<bool, CheckRowsError>
    requires one_line { All (λ b. b ≢ newline) line.now }
    requires room { rows + 1 < 2 ^ 64 }
    ensures row { (more : List ℕ) → IfOk result (λ over. over ≡ false → behind out.old.items rows (coming columns rows false (line.now ++ newline ∷ more)) ≡ behind out.new.items (rows + 1) (coming columns (rows + 1) false more)) }
    ensures end { (more rest : List ℕ) → IfOk result (λ over. over ≡ true → behind out.old.items rows (coming columns rows false (line.now ++ newline ∷ more)) ≡ behind out.new.items rows (coming columns rows true rest)) }
    ensures fault { (more : List ℕ) → TellsFault result (coming columns rows false (line.now ++ newline ∷ more)) }
{
    if line == END_MARK.as_slice() {
        out.extend_from_slice(ENDING)?;
        return Ok(true);
    }
    if let Some(fault) = spell_line(alloc, line, columns, out)? {
        return Err(CheckRowsError::Fault(RowsFault {
            row: rows + 1,
            fault,
        }));
    }
    Ok(false)
}

/// What is left of a text behind its first whole lines that stand for their rows, and how many rows there are then.
fn behind_own(text: &[u8], columns: usize, rows: u64) -> (&[u8], u64)
    requires own { list_all is_own_or_newline text.now ≡ true }
    requires room { rows + length text.now < 2 ^ 64 }
    ensures own { IsOwnRun columns rows text.now result.0.now result.1 }
    ensures room { result.1 + length result.0.now ≤ rows + length text.now }
    ensures within { length result.0.now ≤ length text.now }
{
    let mut rest = text;
    let mut count = rows;
    while let Some((line, behind)) = split_whole(rest) {
        if !has_columns(line, columns) {
            return (rest, count);
        }
        count += 1;
        rest = behind;
    }
    (rest, count)
}

/// Appends a text but for its end, which is this long.
fn put_front(text: &[u8], end: usize, out: &mut Vec<u8>) -> Result<(), AllocError>
    requires { end ≤ length text.now }
    ensures { OnOk result (out.new.items ≡ out.old.items ++ take (length text.now - end) text.now) }
{
    let (front, _) = text.split_at(text.len() - end);
    out.extend_from_slice(front)?;
    Ok(())
}

/// Appends the first whole lines of a text at once, where all of it is its own spelling. What is left, and how many rows are
/// out then.
fn put_own<'a>(
    text: &'a [u8],
    columns: usize,
    rows: u64,
    out: &mut Vec<u8>,
) -> Result<(&'a [u8], u64), AllocError>
    requires { rows + length text.now < 2 ^ 64 }
    ensures same { (more : List ℕ) → IfOk result (λ x. behind out.old.items rows (coming columns rows false (text.now ++ more)) ≡ behind out.new.items x.1 (coming columns x.1 false (x.0.now ++ more))) }
    ensures room { IfOk result (λ x. x.1 + length x.0.now ≤ rows + length text.now) }
    ensures within { IfOk result (λ x. length x.0.now ≤ length text.now) }
{
    if !are_own_lines(text) {
        return Ok((text, rows));
    }
    let (rest, count) = behind_own(text, columns, rows);
    put_front(text, rest.len(), out)?;
    Ok((rest, count))
}

/// What is left of a text once its whole lines are out, how many rows are out, and whether all is.
pub(crate) fn spell_lines<'a>(
    alloc: Global,
    text: &'a [u8],
    columns: usize,
    rows: u64,
    out: &mut Vec<u8>,
) -> Result<(&'a [u8], u64, bool), CheckRowsError>
    requires { rows + length text.now < 2 ^ 64 }
    ensures ok { (more : List ℕ) → IfOk result (λ x. behind out.old.items rows (coming columns rows false (text.now ++ more)) ≡ behind out.new.items x.1 (coming columns x.1 x.2 (x.0.now ++ more))) }
    ensures fault { (more : List ℕ) → TellsFault result (coming columns rows false (text.now ++ more)) }
    ensures one_line { IfOk result (λ x. All (λ b. b ≢ newline) x.0.now) }
    ensures room { IfOk result (λ x. x.1 + length x.0.now ≤ rows + length text.now) }
    ensures within { IfOk result (λ x. length x.0.now ≤ length text.now) }
{
    let (mut rest, mut count) = put_own(text, columns, rows, out)?;
    while let Some((line, behind)) = split_whole(rest) {
        if spell_whole(alloc, line, columns, count, out)? {
            return Ok((b"", count, true));
        }
        count += 1;
        rest = behind;
    }
    Ok((rest, count, false))
}

/// Takes in a piece behind what is held of a line: the whole lines are out, and what is behind them is held. Says how many
/// rows are out then, and whether all is.
pub(crate) fn feed(
    alloc: Global,
    held: &mut Vec<u8>,
    piece: &[u8],
    columns: usize,
    rows: u64,
    out: &mut Vec<u8>,
) -> Result<(u64, bool), CheckRowsError>
    requires one_line { All (λ b. b ≢ newline) held.old.items }
    requires room { rows + (length held.old.items + length piece.now) < 2 ^ 64 }
    ensures ok { (more : List ℕ) → IfOk result (λ x. behind out.old.items rows (coming columns rows false (held.old.items ++ (piece.now ++ more))) ≡ behind out.new.items x.0 (coming columns x.0 x.1 (held.new.items ++ more))) }
    ensures fault { (more : List ℕ) → TellsFault result (coming columns rows false (held.old.items ++ (piece.now ++ more))) }
    ensures one_line { All (λ b. b ≢ newline) held.new.items }
    ensures held { rows + length held.new.items ≤ rows + (length held.old.items + length piece.now) }
    ensures room { IfOk result (λ x. x.0 + length held.new.items ≤ rows + (length held.old.items + length piece.now)) }
{
    let Some((line, behind)) = split_whole(piece) else {
        held.extend_from_slice(piece)?;
        return Ok((rows, false));
    };
    held.extend_from_slice(line)?;
    let ended = spell_whole(alloc, held, columns, rows, out)?;
    held.clear();
    if ended {
        return Ok((rows, true));
    }
    feed_rest(alloc, held, behind, columns, rows + 1, out)
}

/// The same where nothing is held.
fn feed_rest(
    alloc: Global,
    held: &mut Vec<u8>,
    piece: &[u8],
    columns: usize,
    rows: u64,
    out: &mut Vec<u8>,
) -> Result<(u64, bool), CheckRowsError>
    requires none { held.old.items ≡ [] }
    requires room { rows + length piece.now < 2 ^ 64 }
    ensures ok { (more : List ℕ) → IfOk result (λ x. behind out.old.items rows (coming columns rows false (piece.now ++ more)) ≡ behind out.new.items x.0 (coming columns x.0 x.1 (held.new.items ++ more))) }
    ensures fault { (more : List ℕ) → TellsFault result (coming columns rows false (piece.now ++ more)) }
    ensures one_line { All (λ b. b ≢ newline) held.new.items }
    ensures held { length held.new.items ≤ length piece.now }
    ensures room { IfOk result (λ x. x.0 + length held.new.items ≤ rows + length piece.now) }
{
    let (rest, count, over) = spell_lines(alloc, piece, columns, rows, out)?;
    held.extend_from_slice(rest)?;
    Ok((count, over))
}

/// Whether a last line is none, or the one that ends the rows.
fn has_no_row(line: &[u8]) -> bool
    requires { All (λ b. b ≢ newline) line.now }
    ensures none { result ≡ true → read_lines line.now ≡ [] }
    ensures one { result ≡ false → read_lines line.now ≡ row_of line.now ∷ [] }
    ensures some { result ≡ false → 0 < length line.now }
{
    if line.is_empty() {
        return true;
    }
    line == END_MARK.as_slice()
}

/// The last line, which is all that is left of a text, and the ending. Says how many rows are out then.
pub(crate) fn finish(
    alloc: Global,
    held: &[u8],
    columns: usize,
    rows: u64,
    out: &mut Vec<u8>,
) -> Result<u64, CheckRowsError>
    requires one_line { All (λ b. b ≢ newline) held.now }
    requires room { rows + 1 < 2 ^ 64 }
    ensures ok { (rest : List ℕ) → IfOk result (λ count. behind out.old.items rows (coming columns rows false held.now) ≡ behind out.new.items count (coming columns count true rest)) }
    ensures fault { TellsFault result (coming columns rows false held.now) }
    ensures room { IfOk result (λ count. count ≤ rows + length held.now) }
{
    if has_no_row(held) {
        out.extend_from_slice(ENDING)?;
        return Ok(rows);
    }
    if let Some(fault) = spell_line(alloc, held, columns, out)? {
        return Err(CheckRowsError::Fault(RowsFault {
            row: rows + 1,
            fault,
        }));
    }
    out.extend_from_slice(ENDING)?;
    Ok(rows + 1)
}

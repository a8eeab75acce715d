//! Rows from lines.
ghost use Rattle.std.specs.Prelude.{◌≡◌, ◌≢◌, ◌↔◌, ◌+◌, ◌<◌, ◌≤◌, ◌^◌, ℕ, Ok, Err, length, take, IfOk, List};
ghost use Rattle.std.specs.List.{All};
ghost use Rattle.copy_text.specs.declared.fault.CopyFault.{CopyFault};
ghost use Rattle.copy_text.specs.Marks.{newline};
ghost use Rattle.copy_text.specs.Pieces.{pieces, ends_in_backslash, IsFirstPiece};
ghost use Rattle.copy_text.specs.Escapes.{decode};
ghost use Rattle.copy_text.specs.Rows.{Field, SpellsRow};
ghost use Rattle.copy_text.specs.Reading.{Gives, IsFirstFault, field_of, row_of};

use crate::escape::read_escape;
use crate::fault::{CopyFault, ReadRowError};
use crate::row::Row;
use crate::text::Text;
use memchr::{memchr, memchr2};
use std::alloc::{AllocError, Global};

// The whole piece that spells null.
const NULL: &[u8; 2] = b"\\N";

/// The bytes of a piece without its escapes, and whether it ends in a backslash that escapes nothing.
fn unescape(alloc: Global, piece: &[u8]) -> Result<(Vec<u8>, bool), AllocError>
    ensures bytes { IfOk result (λ x. x.0.items ≡ decode piece.now) }
    ensures open { IfOk result (λ x. x.1 ≡ ends_in_backslash piece.now) }
{
    let mut bytes = Vec::with_capacity(alloc, piece.len())?;
    let mut rest = piece;
    while let Some(at) = memchr(b'\\', rest) {
        let (run, _) = rest.split_at(at);
        let (_, behind) = rest.split_at(at + 1);
        bytes.extend_from_slice(run)?;
        if behind.is_empty() {
            return Ok((bytes, true));
        }
        let (byte, len) = read_escape(behind);
        bytes.push(byte)?;
        (_, rest) = behind.split_at(len);
    }
    bytes.extend_from_slice(rest)?;
    Ok((bytes, false))
}

/// The field that a piece spells, or its first fault. The piece begins at `start`.
fn read_field(alloc: Global, start: usize, piece: &[u8]) -> Result<Option<Text>, ReadRowError>
    requires { start + length piece.now < 2 ^ 64 }
    ensures { Gives (λ field. field) result (field_of start piece.now) }
{
    if piece == NULL.as_slice() {
        return Ok(None);
    }
    let raw_return = memchr(b'\r', piece);
    if raw_return == Some(0) {
        return Err(ReadRowError::Fault(CopyFault::RawReturn(start)));
    }
    let (bytes, open) = unescape(alloc, piece)?;
    let Some(text) = Text::new(bytes) else {
        return Err(ReadRowError::Fault(CopyFault::BadUtf8(start)));
    };
    if let Some(at) = raw_return {
        return Err(ReadRowError::Fault(CopyFault::RawReturn(start + at)));
    }
    if open {
        let last = start + piece.len() - 1;
        return Err(ReadRowError::Fault(CopyFault::EndsInBackslash(last)));
    }
    Ok(Some(text))
}

/// How long the first piece of a line is: up to the first tab that no backslash escapes, or to the line's end.
fn first_piece_len(line: &[u8]) -> usize
    ensures { IsFirstPiece line.now result }
{
    let mut at = 0;
    while let Some(found) = memchr2(b'\t', b'\\', &line[at..]) {
        let place = at + found;
        if line[place] == b'\t' {
            return place;
        }
        if line.len() - place < 2 {
            break;
        }
        at = place + 2;
    }
    line.len()
}

/// The row that a line of COPY text spells, at least one field. The line comes without its newline.
///
/// Where the line spells no row, the answer is its first fault: the least place counts, and at one place a raw
/// carriage return comes before bytes that aren't UTF-8, and these before a backslash at the line's end.
/// `Memory` may be answered for any line. https://www.postgresql.org/docs/16/sql-copy.html
pub fn read_row(alloc: Global, line: &[u8]) -> Result<Row, ReadRowError>
    requires { All (λ b. b ≢ newline) line.now }

    // What is read is spelled so, and what is spelled so is read.
    ensures found { IfOk result (λ row. SpellsRow row line.now) }
    ensures only { (row : List Field) → SpellsRow row line.now → Gives (λ row. row) result (Ok row) }

    // What is answered is the first fault, and where there is a first fault it is answered.
    ensures fault { (f : CopyFault) → result ≡ Err (ReadRowError.Fault f) → IsFirstFault line.now f }
    ensures refused { (f : CopyFault) → IsFirstFault line.now f → Gives (λ row. row) result (Err f) }

    // The same as one function of the line.
    ensures exact { Gives (λ row. row) result (row_of line.now) }
{
    read_fields(alloc, line)
}

/// The row of a line, or its first fault, from the left.
fn read_fields(alloc: Global, line: &[u8]) -> Result<Row, ReadRowError>
    ensures { Gives (λ row. row) result (row_of line.now) }
{
    let mut row = Row::new(alloc);
    let mut start = 0;
    loop {
        let (_, rest) = line.split_at(start);
        let len = first_piece_len(rest);
        let (piece, _) = rest.split_at(len);
        let field = read_field(alloc, start, piece)?;
        row.push(field)?;
        if len == rest.len() {
            return Ok(row);
        }
        start += len + 1;
    }
}

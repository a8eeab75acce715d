//! Whether two texts hold the same rows.
ghost use Rattle.std.specs.Prelude.{◌≡◌, ◌≢◌, ◌↔◌, All, IfOk, IsTrue};
ghost use Rattle.copy_text.specs.Marks.{newline};
ghost use Rattle.copy_text.specs.Reading.{row_of};
ghost use Rattle.data_rows.specs.Rows.{read_lines};

use crate::lines::{read_line, split_line};
use copy_text::{CopyFault, Row};
use std::alloc::{AllocError, Global};

/// Whether the lines of two texts in COPY text format read alike, one by one: as the same row, or with the same
/// first fault.
///
/// So two texts that hold rows hold the same rows, however each spells them. Lines count up to the line `\.` or the
/// text's end. It goes over both texts once, and beside them takes memory for two rows at a time. The error is that
/// memory ran out, which may be answered for any texts. See <https://www.postgresql.org/docs/16/sql-copy.html>.
pub fn same_rows(alloc: Global, a: &[u8], b: &[u8]) -> Result<bool, AllocError>
    ensures { IfOk result (λ same. IsTrue same ↔ (read_lines a.now ≡ read_lines b.now)) }
{
    let mut rest = a;
    let mut other_rest = b;
    while let Some((line, behind)) = split_line(rest) {
        let Some((other, other_behind)) = split_line(other_rest) else {
            return Ok(false);
        };
        if !read_alike(alloc, line, other)? {
            return Ok(false);
        }
        rest = behind;
        other_rest = other_behind;
    }
    Ok(split_line(other_rest).is_none())
}

// Whether two lines read as the same row or have the same first fault.
fn read_alike(alloc: Global, line: &[u8], other: &[u8]) -> Result<bool, AllocError>
    requires one_line { All (λ b. b ≢ newline) line.now }
    requires other_line { All (λ b. b ≢ newline) other.now }
    ensures { IfOk result (λ same. IsTrue same ↔ (row_of line.now ≡ row_of other.now)) }
{
    match (read_line(alloc, line)?, read_line(alloc, other)?) {
        (Ok(row), Ok(other_row)) => Ok(same_row(&row, &other_row)),
        (Err(fault), Err(other_fault)) => Ok(same_fault(fault, other_fault)),
        _ => Ok(false),
    }
}

// Whether two rows have the same fields.
fn same_row(row: &Row, other: &Row) -> bool
    ensures { IsTrue result ↔ (row.now ≡ other.now) }
{
    row == other
}

// Whether two faults are of one kind at one place.
fn same_fault(fault: CopyFault, other: CopyFault) -> bool
    ensures { IsTrue result ↔ (fault ≡ other) }
{
    fault == other
}

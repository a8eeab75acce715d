//! One row, spelled anew.
ghost use Rattle.std.specs.Prelude.{◌≡◌, ◌≢◌, ◌+◌, ◌≤◌, ◌<◌, ◌∷◌, [], ◌++◌, ◌==◌, true, All, IsTrue, List, Ok, Err, IfOk, IfNone, IfSome, count_by, length};
ghost use Rattle.std.specs.List.{list_all};
ghost use Rattle.copy_text.specs.Marks.{newline, tab};
ghost use Rattle.copy_text.specs.Rows.{Field};
ghost use Rattle.copy_text.specs.Reading.{row_of};
ghost use Rattle.data_rows.specs.Rows.{checked_row};
ghost use Rattle.dump_files.specs.Own.{is_own, is_own_or_newline};
ghost use Rattle.dump_files.specs.Spelled.{row_line};

use copy_text::write_row;
use data_rows::{DataFault, read_line};
use std::alloc::{AllocError, Global};

/// Appends the row of a line in its one spelling, or says what is wrong with it as a row of a table with this many
/// columns.
pub(crate) fn spell_line(
    alloc: Global,
    line: &[u8],
    columns: usize,
    out: &mut Vec<u8>,
) -> Result<Option<DataFault>, AllocError>
    requires one_line { All (λ b. b ≢ newline) line.now }
    ensures good { IfOk result (λ fault. IfNone fault ((row : List Field) × (checked_row columns (row_of line.now) ≡ Ok row) × (out.new.items ≡ out.old.items ++ row_line row))) }
    ensures bad { IfOk result (λ fault. IfSome fault (λ f. checked_row columns (row_of line.now) ≡ Err f)) }
{
    if are_own(line) {
        keep_line(line, columns, out)
    } else {
        spell_anew(alloc, line, columns, out)
    }
}

fn is_own(byte: u8) -> bool
    ensures { result ≡ is_own byte }
{
    (byte == b'\t') | ((32 <= byte) & ((byte < 127) & (byte != b'\\')))
}

/// Whether each byte of a line is its own spelling. It looks at all of them, so that many are tried at once.
fn are_own(line: &[u8]) -> bool
    ensures { IsTrue result → list_all is_own line.now ≡ true }
{
    let mut own = true;
    for byte in line {
        own &= is_own(*byte);
    }
    own
}

/// How many tabs a line has that is shorter than 256 bytes. The count is as small as a byte, so that many are counted at once.
fn few_tabs(line: &[u8]) -> u8
    requires { length line.now < 256 }
    ensures tabs { result ≡ count_by (λ b. b == tab) line.now }
    ensures few { result ≤ length line.now }
{
    let mut count = 0;
    for byte in line {
        if *byte == b'\t' {
            count += 1;
        }
    }
    count
}

/// How many tabs a line has, of any length.
fn many_tabs(line: &[u8]) -> usize
    ensures tabs { result ≡ count_by (λ b. b == tab) line.now }
    ensures few { result ≤ length line.now }
{
    let mut count = 0;
    for byte in line {
        if *byte == b'\t' {
            count += 1;
        }
    }
    count
}

/// How many tabs a line has.
fn tab_count(line: &[u8]) -> usize
    ensures tabs { result ≡ count_by (λ b. b == tab) line.now }
    ensures few { result ≤ length line.now }
{
    if line.len() < 256 {
        few_tabs(line) as usize
    } else {
        many_tabs(line)
    }
}

fn is_own_or_newline(byte: u8) -> bool
    ensures { result ≡ is_own_or_newline byte }
{
    is_own(byte) | (byte == b'\n')
}

/// Whether each byte of a text ends a line or is its own spelling. It looks at all of them, so that many are tried at once.
pub(crate) fn are_own_lines(text: &[u8]) -> bool
    ensures { IsTrue result → list_all is_own_or_newline text.now ≡ true }
{
    let mut own = true;
    for byte in text {
        own &= is_own_or_newline(*byte);
    }
    own
}

/// Whether a line has a field for each column, where each of its bytes is its own spelling.
pub(crate) fn has_columns(line: &[u8], columns: usize) -> bool
    ensures { IsTrue result → count_by (λ b. b == tab) line.now + 1 ≡ columns }
{
    tab_count(line) + 1 == columns
}

/// Appends a line that is its row's one spelling, where it has a field for each column.
fn keep_line(
    line: &[u8],
    columns: usize,
    out: &mut Vec<u8>,
) -> Result<Option<DataFault>, AllocError>
    requires { list_all is_own line.now ≡ true }
    ensures good { IfOk result (λ fault. IfNone fault ((row : List Field) × (checked_row columns (row_of line.now) ≡ Ok row) × (out.new.items ≡ out.old.items ++ row_line row))) }
    ensures bad { IfOk result (λ fault. IfSome fault (λ f. checked_row columns (row_of line.now) ≡ Err f)) }
{
    let found = tab_count(line) + 1;
    if found != columns {
        return Ok(Some(DataFault::Fields(found as u64)));
    }
    put_line(line, out)?;
    Ok(None)
}

fn put_line(line: &[u8], out: &mut Vec<u8>) -> Result<(), AllocError>
    ensures { IfOk result (λ _. out.new.items ≡ out.old.items ++ (line.now ++ newline ∷ [])) }
{
    out.extend_from_slice(line)?;
    out.push(b'\n')?;
    Ok(())
}

/// The same of any line: its fields are read, and written again.
fn spell_anew(
    alloc: Global,
    line: &[u8],
    columns: usize,
    out: &mut Vec<u8>,
) -> Result<Option<DataFault>, AllocError>
    requires one_line { All (λ b. b ≢ newline) line.now }
    ensures good { IfOk result (λ fault. IfNone fault ((row : List Field) × (checked_row columns (row_of line.now) ≡ Ok row) × (out.new.items ≡ out.old.items ++ row_line row))) }
    ensures bad { IfOk result (λ fault. IfSome fault (λ f. checked_row columns (row_of line.now) ≡ Err f)) }
{
    match read_line(alloc, line)? {
        Ok(row) => {
            let found = row.fields().len();
            if found != columns {
                return Ok(Some(DataFault::Fields(found as u64)));
            }
            write_row(row.fields(), out)?;
            Ok(None)
        }
        Err(fault) => Ok(Some(DataFault::BadRow(fault))),
    }
}

//! The lines of a text that hold rows, one after another.
ghost use Rattle.std.specs.Prelude.{◌≡◌, ◌≢◌, ◌<◌, [], ◌∷◌, length, All, IfOk, IfNone, IfSome};
ghost use Rattle.copy_text.specs.Marks.{newline};
ghost use Rattle.copy_text.specs.Reading.{row_of};
ghost use Rattle.copy_text.specs.Lines.{data_lines};

use copy_text::{CopyFault, Line, ReadRowError, Row, next_line, read_row};
use std::alloc::{AllocError, Global};

/// The first line of a text that holds a row, without its newline, and the text behind it; `None` where no line is left.
pub fn split_line(text: &[u8]) -> Option<(&[u8], &[u8])>
    ensures none { IfNone result (data_lines text.now ≡ []) }
    ensures some { IfSome result (λ x. data_lines text.now ≡ x.0.now ∷ data_lines x.1.now) }
    ensures one_line { IfSome result (λ x. All (λ b. b ≢ newline) x.0.now) }
    ensures shorter { IfSome result (λ x. length x.1.now < length text.now) }
{
    match next_line(text, 0) {
        Line::Row { start, end, next } => Some((&text[start..end], &text[next..])),
        Line::Stop | Line::End => None,
    }
}

/// What a line reads as: its row, or the first fault of its COPY text. The error says that there was no memory.
pub fn read_line(alloc: Global, line: &[u8]) -> Result<Result<Row, CopyFault>, AllocError>
    requires one_line { All (λ b. b ≢ newline) line.now }
    ensures { IfOk result (λ read. read ≡ row_of line.now) }
{
    match read_row(alloc, line) {
        Ok(row) => Ok(Ok(row)),
        Err(ReadRowError::Fault(fault)) => Ok(Err(fault)),
        Err(ReadRowError::Memory) => Err(AllocError),
    }
}

//! Lines that read as their pieces.
ghost use Rattle.std.specs.Prelude.{◌≡◌, IsTrue, Ok, Some, map};
ghost use Rattle.std.specs.List.{AllByRecursion};
ghost use Rattle.copy_text.specs.Lines.{data_lines};
ghost use Rattle.copy_text.specs.Pieces.{pieces};
ghost use Rattle.copy_text.specs.Reading.{row_of};
ghost use Rattle.copy_text.specs.Texts.{IsText};

use memchr::memchr2;

/// Whether a line has neither a backslash nor a carriage return. Then, if it is UTF-8, its fields are its pieces, which
/// tabs part, and none is null.
pub fn is_clear(line: &[u8]) -> bool
    ensures { IsTrue result → IsText line.now → row_of line.now ≡ Ok (map Some (pieces line.now)) }
{
    match memchr2(b'\\', b'\r', line) {
        Some(_) => false,
        None => true,
    }
}

/// Whether a text is UTF-8, and so each of its lines.
pub fn has_text_lines(text: &[u8]) -> bool
    ensures { IsTrue result → AllByRecursion IsText (data_lines text.now) }
{
    match str::from_utf8(text) {
        Ok(_) => true,
        Err(_) => false,
    }
}

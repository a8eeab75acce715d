//! Texts without an escape, gone over field by field.
ghost use Rattle.std.specs.Prelude.{◌≡◌, ◌≤◌, ◌-◌, IsTrue, length};
ghost use Rattle.copy_text.specs.Texts.{IsText};
ghost use Rattle.line_fields.specs.Clear.{IsClear, IsClearText, IsFirstField, behind_line};

use memchr::{memchr, memchr2};

/// Whether a text is UTF-8 without a backslash and a carriage return. Then each of its lines is a row, whose fields are the
/// line's pieces, and none is null.
pub fn is_clear_text(text: &[u8]) -> bool
    ensures { IsTrue result → IsClearText text.now }
{
    match memchr2(b'\\', b'\r', text) {
        Some(_) => false,
        None => is_utf8(text),
    }
}

fn is_utf8(text: &[u8]) -> bool
    ensures { IsTrue result → IsText text.now }
{
    match str::from_utf8(text) {
        Ok(_) => true,
        Err(_) => false,
    }
}

/// The first piece of a text's first line, whether there are more, and what stands behind the piece: behind its tab where there
/// are more, else behind the line. It takes no memory, and serves a text without a backslash and a carriage return.
pub fn split_field(text: &[u8]) -> (&[u8], bool, &[u8])
    ensures field { IsClear text.now → IsFirstField text.now result.0.now result.1 result.2.now }
    ensures shorter { length result.2.now ≤ length text.now - 1 }
{
    match memchr2(b'\t', b'\n', text) {
        Some(at) => {
            let more = text[at] == b'\t';
            let (piece, _) = text.split_at(at);
            let (_, behind) = text.split_at(at + 1);
            (piece, more, behind)
        }
        None => (text, false, &[]),
    }
}

/// What stands behind the first line of a text.
pub fn behind_line(text: &[u8]) -> &[u8]
    ensures line { result.now ≡ behind_line text.now }
    ensures shorter { length result.now ≤ length text.now - 1 }
{
    match memchr(b'\n', text) {
        Some(at) => {
            let (_, behind) = text.split_at(at + 1);
            behind
        }
        None => &[],
    }
}

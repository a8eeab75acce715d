//! Whether a text has no escape, told 64 bytes at a time.
ghost use Rattle.std.specs.Prelude.{◌≡◌, ◌≤◌, ◌<◌, ℕ, false, length, slice_index, IsTrue};
ghost use Rattle.line_fields.specs.Clear.{IsClearText};
ghost use Rattle.field_marks.specs.Marks.{is_special};

use crate::block::are_plain;

fn is_special(b: u8) -> bool
    ensures { result ≡ is_special b }
{
    b == b'\\' || b == b'\r' || b >= 128
}

// Whether no byte from a place on is a backslash, a carriage return or part of a longer character.
fn are_plain_behind(text: &[u8], from: usize) -> bool
    requires { from ≤ length text.now }
    ensures { IsTrue result → (k : ℕ) → from ≤ k → k < length text.now → is_special (slice_index text.now k) ≡ false }
{
    for i in from..text.len() {
        if is_special(text[i]) {
            return false;
        }
    }
    true
}

// The same of all bytes of a text.
fn is_plain(text: &[u8]) -> bool
    ensures { IsTrue result → (k : ℕ) → k < length text.now → is_special (slice_index text.now k) ≡ false }
{
    let mut at = 0;
    'runs: while 64 <= text.len() - at {
        if !are_plain(text, at) {
            return false;
        }
        at += 64;
    }
    are_plain_behind(text, at)
}

/// Whether a text is UTF-8 without a backslash and a carriage return. Then each of its lines is a row, whose fields are the
/// line's pieces, and none is null. A text of ASCII is gone over once.
pub fn is_clear_text(text: &[u8]) -> bool
    ensures { IsTrue result → IsClearText text.now }
{
    is_plain(text) || line_fields::is_clear_text(text)
}

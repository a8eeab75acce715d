//! A text that is gone over field by field.
ghost use Rattle.std.specs.Prelude.{◌≡◌, ◌≢◌, ◌≤◌, ◌<◌, ◌+◌, ◌-◌, ◌==◌, length, drop, IfSome, IsTrue};
ghost use Rattle.memchr.specs.Find.{Nowhere};
ghost use Rattle.line_fields.specs.Clear.{IsClear, IsFirstField};
ghost use Rattle.field_marks.specs.Marks.{AreMarks, IsFirstMarked, Separates};

use crate::block::{above, lowest, marks_at};
use memchr::memchr2;
use std::marker::Model;

/// What is left of a text, with marks of the next tabs and newlines. A contract sees the bytes that are left.
#[derive(Drop)]
pub struct TextAhead<'t> {
    text: &'t [u8],
    bits: u64,
    known: usize,
}

impl<'t> Model for TextAhead<'t> {
    ghost use Rattle.std.specs.Prelude.{List, ℕ};
    ghost use Rattle.field_marks.specs.Marks.{AreMarks};

    ghost Value = { List ℕ };

    ghost view = { λ a. a.text.now };

    ghost invariant = { λ a. AreMarks a.text.now a.bits a.known };
}

impl<'t> TextAhead<'t> {
    /// A text from its start.
    pub fn new(text: &'t [u8]) -> TextAhead<'t>
        ensures { result ≡ text.now }
    {
        TextAhead {
            text,
            bits: 0,
            known: 0,
        }
    }

    /// Whether no byte is left.
    pub fn is_empty(&self) -> bool
        ensures { result ≡ (length self.now == 0) }
    {
        self.text.is_empty()
    }

    /// The first piece of the first line, whether there are more, and what stands behind the piece: behind its tab where there
    /// are more, else behind the line. It takes no memory, and serves a text without a backslash and a carriage return.
    #[inline(always)]
    pub fn split(self) -> (&'t [u8], bool, TextAhead<'t>)
        ensures field { IsClear self.entry → IsFirstField self.entry result.0.now result.1 result.2 }
        ensures shorter { length result.2 ≤ length self.entry - 1 }
        ensures less { IsTrue result.1 → length result.2 < length self.entry }
    {
        let TextAhead { text, bits, known } = self;
        if bits == 0 {
            return split_far(text, known);
        }
        let at = lowest(bits);
        cut(text, at, above(bits, at), known - at - 1)
    }
}

// The piece before a tab or a newline, and what stands behind that, with its marks.
#[inline(always)]
fn cut<'t>(text: &'t [u8], at: usize, bits: u64, known: usize) -> (&'t [u8], bool, TextAhead<'t>)
    requires within { at < length text.now }
    requires first { Nowhere (Separates text.now) 0 at }
    requires here { Separates text.now at }
    requires marks { AreMarks (drop (at + 1) text.now) bits known }
    ensures field { IsClear text.now → IsFirstField text.now result.0.now result.1 result.2 }
    ensures less { length result.2 < length text.now }
{
    let more = text[at] == b'\t';
    let (piece, _) = text.split_at(at);
    let (_, behind) = text.split_at(at + 1);
    let ahead = TextAhead {
        text: behind,
        bits,
        known,
    };
    (piece, more, ahead)
}

// The same where no tab or newline stands among the bytes that are known.
fn split_far<'t>(text: &'t [u8], known: usize) -> (&'t [u8], bool, TextAhead<'t>)
    requires within { known ≤ length text.now }
    requires none { Nowhere (Separates text.now) 0 known }
    ensures field { IsClear text.now → IsFirstField text.now result.0.now result.1 result.2 }
    ensures shorter { length result.2 ≤ length text.now - 1 }
    ensures less { IsTrue result.1 → length result.2 < length text.now }
{
    match next_marks(text, known) {
        Some((start, bits)) => {
            let at = lowest(bits);
            cut(text, start + at, above(bits, at), 63 - at)
        }
        None => split_short(text),
    }
}

// The next 64 bytes that have a tab or a newline, and their marks; `None` where fewer than 64 are left.
fn next_marks(text: &[u8], from: usize) -> Option<(usize, u64)>
    requires within { from ≤ length text.now }
    requires none { Nowhere (Separates text.now) 0 from }
    ensures { IfSome result (λ m. IsFirstMarked text.now m.0 m.1) }
{
    let mut at = from;
    'runs: while 64 <= text.len() - at {
        let bits = marks_at(text, at);
        if bits != 0 {
            return Some((at, bits));
        }
        at += 64;
    }
    None
}

// The same without marks.
fn split_short<'t>(text: &'t [u8]) -> (&'t [u8], bool, TextAhead<'t>)
    ensures field { IsClear text.now → IsFirstField text.now result.0.now result.1 result.2 }
    ensures shorter { length result.2 ≤ length text.now - 1 }
    ensures less { IsTrue result.1 → length result.2 < length text.now }
{
    match memchr2(b'\t', b'\n', text) {
        Some(at) => cut(text, at, 0, 0),
        None => (text, false, TextAhead::new(&[])),
    }
}

//! Pieces of the first line of a text.
ghost use Rattle.std.specs.Prelude.{◌≡◌, ◌≤◌, ◌-◌, Some, length, true, false, IfSome};
ghost use Rattle.std.specs.List.{slice_get};
ghost use Rattle.copy_text.specs.Pieces.{pieces};
ghost use Rattle.line_fields.specs.Clear.{IsClear, behind_line, first_line};

use crate::ahead::TextAhead;

// What stands behind the first line of a text without a backslash and a carriage return.
#[inline(always)]
fn skip_line<'t>(text: TextAhead<'t>) -> TextAhead<'t>
    ensures line { IsClear text.entry → result ≡ behind_line text.entry }
    ensures shorter { length result ≤ length text.entry - 1 }
{
    let mut rest = text;
    'pieces: loop {
        let (_, more, behind) = rest.split();
        if !more {
            return behind;
        }
        rest = behind;
    }
}

// The same where the line goes on, else the text itself.
#[inline(always)]
fn behind_more<'t>(more: bool, text: TextAhead<'t>) -> TextAhead<'t>
    ensures ended { more ≡ false → result ≡ text.entry }
    ensures line { more ≡ true → IsClear text.entry → result ≡ behind_line text.entry }
    ensures shorter { length result ≤ length text.entry }
{
    if more { skip_line(text) } else { text }
}

/// The piece of a text's first line at a place, counted from 0, and what stands behind the line; `None` where the line has
/// fewer pieces. It takes no memory, and serves a text without a backslash and a carriage return.
pub fn line_piece<'t>(text: TextAhead<'t>, place: usize) -> Option<(&'t [u8], TextAhead<'t>)>
    ensures piece { IfSome result (λ p. IsClear text.entry → slice_get (pieces (first_line text.entry)) place ≡ Some p.0.now) }
    ensures line { IfSome result (λ p. IsClear text.entry → p.1 ≡ behind_line text.entry) }
    ensures shorter { IfSome result (λ p. length p.1 ≤ length text.entry - 1) }
{
    let mut rest = text;
    for i in 0..place {
        let (_, more, behind) = rest.split();
        if !more {
            return None;
        }
        rest = behind;
    }
    let (piece, more, behind) = rest.split();
    Some((piece, behind_more(more, behind)))
}

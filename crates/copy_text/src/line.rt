//! The lines of a text, in their order.
ghost use Rattle.std.specs.Prelude.{◌≡◌, ◌≤◌, ◌==◌, length};
ghost use Rattle.std.specs.List.{position_or_len};
ghost use Rattle.copy_text.specs.Marks.{newline};
ghost use Rattle.copy_text.specs.Lines.{line_at, IsNextLine};

use memchr::memchr;

/// What stands at a place of a text. Places count bytes from 0.
#[derive(Clone, Copy, Debug, PartialEq, Eq)]
pub enum Line {
    /// A line from `start` up to `end`; what follows it begins at `next`.
    Row {
        start: usize,
        end: usize,
        next: usize,
    },
    /// The line `\.`, which ends the rows. Nothing behind it is looked at.
    Stop,
    /// The text's end.
    End,
}

// The whole line that ends the rows.
const END_MARK: &[u8; 2] = b"\\.";

/// The line that begins at a place: `Stop` for the line `\.` alone, `End` at the text's end alone. A line ends
/// before its newline; the last line may lack one. It takes no memory.
pub fn next_line(text: &[u8], at: usize) -> Line
    requires { at ≤ length text.now }
    ensures line { IsNextLine text.now at result }
    ensures exact { result ≡ line_at text.now at }
{
    if at == text.len() {
        return Line::End;
    }
    let (_, rest) = text.split_at(at);
    let len = line_len(rest);
    let (line, _) = rest.split_at(len);
    if line == END_MARK.as_slice() {
        return Line::Stop;
    }
    let end = at + len;
    Line::Row {
        start: at,
        end,
        next: if end < text.len() { end + 1 } else { end },
    }
}

fn line_len(rest: &[u8]) -> usize
    ensures value { result ≡ position_or_len (λ b. b == newline) rest.now }
    ensures within { result ≤ length rest.now }
{
    memchr(b'\n', rest).unwrap_or(rest.len())
}

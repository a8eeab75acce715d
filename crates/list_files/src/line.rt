//! A line of a list file.
ghost use Rattle.std.specs.Prelude.{◌≡◌, ◌<◌, ◌≤◌, ◌==◌, ◌∷◌, IfSome, length, reverse};
ghost use Rattle.std.specs.List.{before_first, list_all, position_or_len};
ghost use Rattle.std.specs.Option.{option_copied};
ghost use Rattle.list_files.specs.Lines.{lines, lines_behind, is_semicolon, is_blank, without_front, content, is_digit, number};

use memchr::memchr;

// The first number past 32 bits.
const END: u64 = 1 << 32;

// How many bytes stand before the first one that is this, or all.
fn part_len(text: &[u8], byte: u8) -> usize
    ensures value { result ≡ position_or_len (λ b. b == byte) text.now }
    ensures within { result ≤ length text.now }
{
    memchr(byte, text).unwrap_or(text.len())
}

/// The first line of a text, and what stands behind its line feed, if one ends it.
pub fn split_line(text: &[u8]) -> (&[u8], Option<&[u8]>)
    ensures lines { lines text.now ≡ result.0.now ∷ lines_behind (option_copied result.1) }
    ensures shorter { IfSome result.1 (λ rest. length rest.now < length text.now) }
{
    let end = part_len(text, b'\n');
    if end < text.len() {
        (&text[..end], Some(&text[end + 1..]))
    } else {
        (text, None)
    }
}

fn is_blank(byte: u8) -> bool
    ensures { result ≡ is_blank byte }
{
    byte == b' ' || byte == b'\t'
}

fn without_front(text: &[u8]) -> &[u8]
    ensures { result.now ≡ without_front text.now }
{
    let mut rest = text;
    while let Some((first, others)) = rest.split_first() {
        if !is_blank(*first) {
            return rest;
        }
        rest = others;
    }
    rest
}

fn without_end(text: &[u8]) -> &[u8]
    ensures { result.now ≡ reverse (without_front (reverse text.now)) }
{
    let mut rest = text;
    while let Some((last, others)) = rest.split_last() {
        if !is_blank(*last) {
            return rest;
        }
        rest = others;
    }
    rest
}

/// What a line says: what stands before its first semicolon, without the blanks around it.
pub fn content(line: &[u8]) -> &[u8]
    ensures { result.now ≡ content line.now }
{
    without_end(without_front(before_semicolon(line)))
}

fn before_semicolon(line: &[u8]) -> &[u8]
    ensures { result.now ≡ before_first is_semicolon line.now }
{
    &line[..part_len(line, b';')]
}

fn is_digit(byte: u8) -> bool
    ensures { result ≡ is_digit byte }
{
    b'0' <= byte && byte <= b'9'
}

/// Whether a text is of digits alone.
pub fn is_number(text: &[u8]) -> bool
    ensures { result ≡ list_all is_digit text.now }
{
    text.iter().all(|b| is_digit(*b))
}

/// The number that digits come to, where it has 32 bits.
pub fn number(digits: &[u8]) -> Option<u32>
    ensures { result ≡ number digits.now }
{
    let mut value = 0u64;
    for digit in digits {
        let next = value * 10 + u64::from(digit.saturating_sub(b'0'));
        value = next.min(END);
    }
    u32::try_from(value).ok()
}

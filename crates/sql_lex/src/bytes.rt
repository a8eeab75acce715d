//! The classes of bytes.

ghost use Rattle.std.specs.Prelude.{◌≡◌, ◌<◌, ◌≤◌, ◌==◌, length, drop, IsTrue};
ghost use Rattle.sql_lex.specs.Bytes.{is_blank, is_digit, begins_word, in_word, is_sign, marks_escapes, next_is};

/// Whether the byte is white space.
#[tactic(auto, unfolding(crate::specs::Bytes::is_blank))]
pub fn is_blank(byte: u8) -> bool
    ensures { result ≡ is_blank byte }
{
    byte == b' ' || byte == b'\t' || byte == b'\n' || byte == b'\r' || byte == b'\x0c'
}

/// Whether the byte is a decimal digit.
#[tactic(auto, unfolding(crate::specs::Bytes::is_digit))]
pub fn is_digit(byte: u8) -> bool
    ensures { result ≡ is_digit byte }
{
    byte.is_ascii_digit()
}

/// Whether a word can begin with the byte.
#[tactic(auto, unfolding(crate::specs::Bytes::begins_word))]
pub fn begins_word(byte: u8) -> bool
    ensures { result ≡ begins_word byte }
{
    byte.is_ascii_alphabetic() || byte == b'_' || byte >= 128
}

/// Whether a word can go on with the byte.
#[tactic(auto, unfolding(crate::specs::Bytes::in_word))]
pub fn in_word(byte: u8) -> bool
    ensures { result ≡ in_word byte }
{
    begins_word(byte) || is_digit(byte) || byte == b'$'
}

/// Whether the byte is a token by itself.
#[tactic(auto, unfolding(crate::specs::Bytes::is_sign))]
pub fn is_sign(byte: u8) -> bool
    ensures { result ≡ is_sign byte }
{
    matches!(
        byte,
        b'!' | b'#' | b'%' | b'&' | b'('..=b'/' | b':'..=b'@' | b'[' | b']' | b'^' | b'|' | b'~'
    )
}

/// Whether the byte, before a quote, begins a literal with escapes.
#[tactic(auto, unfolding(crate::specs::Bytes::marks_escapes))]
pub fn marks_escapes(byte: u8) -> bool
    ensures { result ≡ marks_escapes byte }
{
    byte == b'E' || byte == b'e'
}

/// Whether this byte stands at the place.
#[tactic(auto, unfolding(crate::specs::Bytes::next_is))]
pub fn stands(byte: u8, text: &[u8], at: usize) -> bool
    requires { at ≤ length text.now }
    ensures value { result ≡ next_is (λ c. c == byte) (drop at text.now) }
    ensures room { IsTrue result → at < length text.now }
{
    text.get(at) == Some(&byte)
}

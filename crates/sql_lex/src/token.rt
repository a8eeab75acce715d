//! What a token is.

/// The kinds of tokens.
#[derive(Clone, Copy)]
pub enum TokenKind {
    /// A bare word: a key word or a name.
    Word,
    /// A name in double quotes.
    QuotedName,
    /// A text in single quotes, or one with escapes behind an `E`.
    Literal,
    /// Digits, which a dot and further digits may follow.
    Number,
    /// One byte that stands for itself, such as a comma.
    Sign(u8),
    /// A line that begins with a backslash, without the line feed: a command of psql
    /// (<https://www.postgresql.org/docs/16/app-psql.html>).
    MetaLine,
}

/// A token of a text: the bytes from `start` up to `end`, counted from 0.
#[derive(Clone, Copy)]
pub struct Token {
    pub kind: TokenKind,
    pub start: usize,
    pub end: usize,
}

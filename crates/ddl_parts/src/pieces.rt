//! Tokens with their places.
use sql_lex::Token;

/// A token, and where the one before it ends.
#[derive(Clone, Copy)]
pub struct Piece {
    /// The end of the token before, or where reading began.
    pub from: usize,
    /// The token.
    pub token: Token,
}

//! The tokens of one statement, out of a text.
ghost use Rattle.std.specs.Prelude.{◌≡◌, ◌≤◌, ◌<◌, length, true, IfOk};
ghost use Rattle.ddl_parts.specs.Pieces.{lexemes, are_joined, are_sound};
ghost use Rattle.ddl_parts.specs.Collecting.{collected};

use crate::pieces::is_sign_kind;
use ddl_parts::Piece;
use sql_lex::{LexFault, next_token};
use std::alloc::{AllocError, Global};

/// The tokens of a statement, the end of the last, and the fault behind them where no semicolon ends them.
#[derive(Drop)]
pub struct Run {
    /// The tokens.
    pub pieces: Vec<Piece>,
    /// Where the last ends.
    pub end: usize,
    /// The first fault of the text behind them.
    pub fault: Option<LexFault>,
}

/// The tokens from a place of a text up to the first semicolon. Where there is none, they go up to the end of the text
/// or up to its first fault.
#[tactic(auto, using(crate::proofs::Collects::joined_whole))]
pub fn collect(alloc: Global, text: &[u8], from: usize) -> Result<Run, AllocError>
    requires { from ≤ length text.now }
    ensures exact { IfOk result (λ r. collected text.now from ≡ record { pieces = r.pieces.items; end = r.end; fault = r.fault }) }
    ensures joined { IfOk result (λ r. are_joined (length text.now) r.pieces.items ≡ true) }
    ensures sound { IfOk result (λ r. are_sound text.now r.pieces.items ≡ true) }
    ensures within { IfOk result (λ r. (from ≤ r.end) × (r.end ≤ length text.now)) }
    ensures forward { IfOk result (λ r. 0 < length r.pieces.items → from < r.end) }
{
    let mut pieces = Vec::new(alloc);
    let mut at = from;
    'tokens: loop {
        let token = match next_token(text, at) {
            Ok(Some(token)) => token,
            Ok(None) => {
                return Ok(Run {
                    pieces,
                    end: at,
                    fault: None,
                });
            }
            Err(fault) => {
                return Ok(Run {
                    pieces,
                    end: at,
                    fault: Some(fault),
                });
            }
        };
        pieces.push(Piece { from: at, token })?;
        at = token.end;
        if is_sign_kind(token.kind, b';') {
            return Ok(Run {
                pieces,
                end: at,
                fault: None,
            });
        }
    }
}

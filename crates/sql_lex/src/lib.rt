//! Tokens, names and literals of SQL.
#![tactic(auto)]

mod bytes;
mod ends;
mod fault;
mod laws;
mod meaning;
mod next;
mod piece;
mod reserved;
mod token;
mod write;

pub use fault::{LexFault, TokensError};
pub use laws::{
    each_gap_is_passed, each_spelling_is_read, literals_are_read_back, names_are_read_back,
    the_definitions_meet_the_examples, the_first_fault_is_told, the_longest_is_taken,
    tokens_follow_one_another, tokens_stand_in_order, what_is_due_is_found, what_is_found_is_due,
};
pub use meaning::{is_keyword, literal_text, token_name};
pub use next::{next_token, tokens};
pub use token::{Token, TokenKind};
pub use write::{write_literal, write_name};

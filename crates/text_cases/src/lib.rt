//! Cases of texts, for the program `trials`: rows, tokens, names, rights, statements, references, footprints, tables, refusals.
//!
//! A case is a line in which a byte outside printable ASCII, and the backslash, is written `\xHH`.
#![tactic(auto)]

mod answering;
mod escapes;
mod footprints;
mod grammar;
mod kind;
mod languages;
mod references;
mod refused;
mod statements;
mod tables;

pub use answering::answer;
pub use escapes::{decoded, show};
pub use kind::{Part, TextKind, table_of, text_kind};
pub use references::put_key;

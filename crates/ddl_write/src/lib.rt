//! Statements of SQL, each written in one spelling.
#![tactic(auto)]

/// Appends pieces, each named by its kind: some of a text, or those that are the text of a statement.
macro_rules! put {
    ($out:expr; $($kind:ident($($value:expr),*)),+) => {
        $crate::words::put_all(&[$($crate::words::Piece::$kind($($value),*)),+], $out)
    };
    ($stmt:expr, $out:expr; $($kind:ident($($value:expr),*)),+) => {
        $crate::writing::put_said($stmt, &[$($crate::words::Piece::$kind($($value),*)),+], $out)
    };
}

mod fault;
pub mod laws;
mod lists;
mod rights;
mod views;
mod words;
mod writing;

pub use fault::WriteStmtError;
pub use writing::write_stmt;

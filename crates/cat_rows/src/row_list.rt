//! The rows of a table.
ghost use Rattle.std.specs.Prelude.{◌≡◌, [], ◌∷◌, ◌++◌, OnOk, OnErr};

use std::alloc::{AllocFailed, Global};
use std::marker::Model;

/// The rows of a table, in the order of its text. A contract sees them as a list.
#[derive(Drop)]
pub struct Rows<R> {
    rows: Vec<R>,
}

impl<R> Model for Rows<R> {
    ghost use Rattle.std.specs.Prelude.{List};

    ghost Value = { List R };

    ghost view = { λ r. r.rows.items };
}

impl<R> Rows<R> {
    /// No rows. It takes no memory.
    pub fn new(alloc: Global) -> Rows<R>
        ensures { result ≡ [] }
    {
        Rows {
            rows: Vec::new(alloc),
        }
    }

    /// These rows.
    pub fn from_vec(rows: Vec<R>) -> Rows<R>
        ensures { result ≡ rows.items }
    {
        Rows { rows }
    }

    /// Adds a row at the end. After an `Err`, which gives the row back, nothing has changed.
    pub fn push(&mut self, row: R) -> Result<(), AllocFailed<R>>
        ensures ok { OnOk result (self.new ≡ self.old ++ row ∷ []) }
        ensures err { OnErr result (self.new ≡ self.old) }
    {
        self.rows.push(row)
    }

    /// The rows.
    pub fn as_slice(&self) -> &[R]
        ensures { result.now ≡ self.now }
    {
        &self.rows
    }

    /// The rows, handed over.
    pub fn into_vec(self) -> Vec<R>
        ensures { result.items ≡ self }
    {
        let Rows { rows } = self;
        rows
    }
}

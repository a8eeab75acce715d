//! Cells: the fields of a system table with their types.
ghost use Rattle.std.specs.Prelude.{◌≡◌, length};

use crate::letter::Letter;
use acl_text::Acl;
use copy_text::{Name, Text};
use std::marker::Model;

/// A field of a system table, of one of the kinds of columns.
#[derive(Drop)]
pub enum Cell {
    /// A number below 2^32.
    Oid(u32),
    /// A number.
    Int(i64),
    /// True or false.
    Bool(bool),
    /// A name.
    Name(Name),
    /// A text.
    Text(Text),
    /// A text or null.
    NullText(Option<Text>),
    /// A letter.
    Letter(Letter),
    /// A list of rights; null stands for the default ones.
    Acl(Option<Acl>),
}

/// The cells of a row, N of them. A contract sees them as a list.
#[derive(Drop)]
pub struct Cells<const N: usize> {
    cells: Vec<Cell>,
}

impl<const N: usize> Model for Cells<N> {
    ghost use Rattle.std.specs.Prelude.{List, ◌≡◌, length};
    ghost use Rattle.cat_rows.specs.declared.cell.Cell.{Cell};

    ghost Value = { List Cell };

    ghost view = { λ c. c.cells.items };

    ghost invariant = { λ c. length c.cells.items ≡ N };
}

impl<const N: usize> Cells<N> {
    pub(crate) fn new(cells: Vec<Cell>) -> Cells<N>
        requires { length cells.items ≡ N }
        ensures { result ≡ cells.items }
    {
        Cells { cells }
    }

    /// The cells.
    pub fn as_slice(&self) -> &[Cell]
        ensures value { result.now ≡ self.now }
        ensures len { length result.now ≡ N }
    {
        &self.cells
    }
}

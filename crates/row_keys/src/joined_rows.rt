//! Rows one behind another.
ghost use Rattle.std.specs.Prelude.{◌≡◌, ◌<◌, ◌++◌, ◌-◌, ◌^◌, length, get_or};

use copy_text::Row;
use std::marker::Model;

/// The rows of a table, and behind them those that a statement adds. A contract sees the list of all.
#[derive(Drop)]
pub struct JoinedRows<'a> {
    first: &'a [Row],
    added: &'a [Row],
}

impl<'a> Model for JoinedRows<'a> {
    ghost use Rattle.std.specs.Prelude.{List, ◌++◌};
    ghost use Rattle.copy_text.specs.Rows.{Field};

    ghost Value = { List (List Field) };

    ghost view = { λ r. r.first.now ++ r.added.now };
}

impl<'a> JoinedRows<'a> {
    /// These rows, and the others behind them.
    pub fn new(first: &'a [Row], added: &'a [Row]) -> JoinedRows<'a>
        ensures { result ≡ first.now ++ added.now }
    {
        JoinedRows { first, added }
    }

    /// How many they are.
    pub fn len(&self) -> u64
        ensures count { result ≡ length self.now }
        ensures small { result < 2 ^ 64 - 1 }
    {
        self.first.len() as u64 + self.added.len() as u64
    }

    /// The row at a place, counted from 0.
    pub fn row(&self, place: u64) -> &'a Row
        requires { place < length self.now }
        ensures { result.now ≡ get_or self.now place result.now }
    {
        let first = self.first.len() as u64;
        if place < first {
            &self.first[place as usize]
        } else {
            &self.added[(place - first) as usize]
        }
    }
}

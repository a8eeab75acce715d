//! The pieces of an entry's rows.
ghost use Rattle.std.specs.Prelude.{◌≡◌, drop};
ghost use Rattle.std.specs.Iterator.{YieldsFirstRef, item_count};

use crate::blocks::next_piece;
use std::marker::Model;

/// The pieces of an entry's rows in order, as parts of the archive's bytes. A contract sees the list of them.
#[derive(Drop)]
pub struct Pieces<'a> {
    rest: &'a [u8],
}

impl<'a> Model for Pieces<'a> {
    ghost use Rattle.std.specs.Prelude.{List, ℕ};
    ghost use Rattle.fmt_custom.specs.Blocks.{pieces_in};

    ghost Value = { List (List ℕ) };

    ghost view = { λ p. pieces_in p.rest.now };
}

impl<'a> Pieces<'a> {
    ghost use Rattle.std.specs.Prelude.{◌≡◌, drop};
    ghost use Rattle.fmt_custom.specs.Blocks.{pieces_in};

    /// The pieces that begin at a place of the bytes.
    pub(crate) fn at(bytes: &'a [u8], place: usize) -> Pieces<'a>
        ensures { result ≡ pieces_in (drop place bytes.now) }
    {
        let place = place.min(bytes.len());
        Pieces {
            rest: &bytes[place..],
        }
    }
}

impl<'a> Iterator for Pieces<'a> {
    type Item = &'a [u8];

    ghost next_gives = { YieldsFirstRef (λ s. s) };

    ghost remaining = { item_count (λ s. s) };

    fn next(&mut self) -> Option<&'a [u8]> {
        let (bytes, behind) = next_piece(self.rest)?;
        self.rest = behind;
        Some(bytes)
    }
}

//! What the rows of constraints are tried against.
ghost use Rattle.std.specs.Prelude.{◌≡◌, IfOk};
ghost use Rattle.constraint_table.specs.Keys.{has_key_on};

use crate::key_set::{KeySet, is_key_on};
use crate::keys::keys_of;
use cat_book::Book;
use copy_text::Name;
use std::alloc::{AllocError, Global};
use std::marker::Model;

/// A catalogue's book, with the keys of its tables. A contract sees the catalogue.
#[derive(Drop)]
pub struct Beside<'a> {
    book: &'a Book<'a>,
    keys: KeySet,
}

impl<'a> Model for Beside<'a> {
    ghost use Rattle.cat_rows.specs.declared.catalogue.Catalogue.{Catalogue};
    ghost use Rattle.constraint_table.specs.Keys.{keys_of};
    ghost use Rattle.constraint_table.specs.KeySets.{AreKeysOn};

    ghost Value = { Catalogue };

    ghost view = { λ b. b.book.now };

    ghost invariant = { λ b. AreKeysOn b.keys (keys_of b.book.now) };
}

impl<'a> Beside<'a> {
    /// This book, with the keys of its catalogue's tables.
    pub fn of(alloc: Global, book: &'a Book<'a>) -> Result<Beside<'a>, AllocError>
        ensures { IfOk result (λ beside. beside ≡ book.now) }
    {
        let keys = keys_of(alloc, book.tables())?;
        Ok(Beside { book, keys })
    }

    /// The book.
    pub(crate) fn book(&self) -> &Book<'a>
        ensures { result.now ≡ self.now }
    {
        self.book
    }

    /// Whether a table has a key on this set of columns.
    pub(crate) fn has_key_on(
        &self,
        alloc: Global,
        table: u32,
        names: &[Name],
    ) -> Result<bool, AllocError>
        ensures { IfOk result (λ has. has ≡ has_key_on self.now table names.now) }
    {
        let has = is_key_on(alloc, &self.keys, table, names)?;
        Ok(has)
    }
}

//! The rows of tables as texts, by the tables' oids.
ghost use Rattle.std.specs.Prelude.{◌≡◌, OnOk, OnErr, option_map};
ghost use Rattle.std.specs.Ordering.{nat_cmp};
ghost use Rattle.std.specs.FinMap.{empty, get, insert};

use std::alloc::{AllocError, Global};
use std::collections::BTreeMap;
use std::marker::Model;

/// The texts of the rows of tables. A contract sees them as a finite map from the tables' oids to texts.
#[derive(Drop)]
pub struct DataSet {
    texts: BTreeMap<u32, Vec<u8>>,
}

impl Model for DataSet {
    ghost use Rattle.std.specs.FinMap.{code};
    ghost use Rattle.std.specs.Coded.{coded_ℕ, coded_list};
    ghost use Rattle.cat_names.specs.DataSets.{TextsByOid, seen};

    ghost Value = { TextsByOid };

    ghost coded = { code coded_ℕ (coded_list coded_ℕ) };

    ghost view = { λ d. seen d.texts };
}

impl DataSet {
    /// No texts. It takes no memory.
    pub fn new(alloc: Global) -> DataSet
        ensures { result ≡ empty }
    {
        DataSet {
            texts: BTreeMap::new(alloc),
        }
    }

    /// Puts the text of the table's rows in place of one that was put before. After an `Err` nothing has changed.
    pub fn put(&mut self, table: u32, text: Vec<u8>) -> Result<(), AllocError>
        ensures ok { OnOk result (self.new ≡ insert self.old table text.items) }
        ensures err { OnErr result (self.new ≡ self.old) }
    {
        self.texts.insert(table, text)?;
        Ok(())
    }

    /// The text of the table's rows; `None` exactly where none was put.
    pub fn text(&self, table: u32) -> Option<&[u8]>
        ensures { option_map (λ t. t.now) result ≡ get self.now table }
    {
        match self.texts.get(&table) {
            Some(text) => Some(text.as_slice()),
            None => None,
        }
    }
}

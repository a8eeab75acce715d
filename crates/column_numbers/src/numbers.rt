//! The numbers of columns.
ghost use Rattle.std.specs.Prelude.{◌≡◌, Some, IfOk, OnOk, OnErr};
ghost use Rattle.std.specs.FinMap.{empty, insert};
ghost use Rattle.cat_model.specs.declared.key.Key.TheVariants as key;
ghost use Rattle.column_numbers.specs.Numbers.{number_at, number_of};

use crate::let_go::let_go_key;
use cat_model::{Key, QName};
use copy_text::Name;
use std::alloc::{AllocError, Global};
use std::collections::BTreeMap;
use std::marker::Model;

/// The numbers of the columns of tables. A contract sees a finite map, by the key that a column's default would have.
#[derive(Drop)]
pub struct Numbers {
    numbers: BTreeMap<Key, i64>,
}

impl Model for Numbers {
    ghost use Rattle.std.specs.Coded.{coded_ℤ};
    ghost use Rattle.std.specs.FinMap.{from_entries, code};
    ghost use Rattle.cat_model.specs.contracts.key.Key as key;
    ghost use Rattle.column_numbers.specs.Numbers.{NumbersOf};

    ghost Value = { NumbersOf };

    ghost coded = { code key.the_row.coded coded_ℤ };

    ghost view = { λ n. from_entries n.numbers.entries };
}

// The key that a column's default would have.
fn column_key(table: &QName, column: &Name) -> Result<Key, AllocError>
    ensures { IfOk result (λ k. k ≡ key.Default table.now column.now) }
{
    let column = column.clone()?;
    Ok(Key::Default(table.clone()?, column))
}

impl Numbers {
    /// No column has a number.
    pub fn new(alloc: Global) -> Numbers
        ensures { result ≡ empty }
    {
        Numbers {
            numbers: BTreeMap::new(alloc),
        }
    }

    // The number under a key; 0 where there is none.
    fn at(&self, key: &Key) -> i64
        ensures { result ≡ number_at self.now key.now }
    {
        self.numbers.get(key).copied().unwrap_or(0)
    }

    /// The number of a column; 0 for one that has none. The only error is want of memory.
    pub fn of(&self, table: &QName, column: &Name) -> Result<i64, AllocError>
        ensures { IfOk result (λ number. number ≡ number_of self.now table.now column.now) }
    {
        let key = column_key(table, column)?;
        let number = self.at(&key);
        let_go_key(key);
        Ok(number)
    }

    /// Gives a column a number in place of the one that it had. After an `Err` all is as it was.
    pub fn put(&mut self, table: &QName, column: &Name, number: i64) -> Result<(), AllocError>
        ensures ok { OnOk result (self.new ≡ insert self.old (key.Default table.now column.now) number) }
        ensures err { OnErr result (self.new ≡ self.old) }
    {
        self.insert(column_key(table, column)?, number)
    }

    // Puts a number under a key.
    fn insert(&mut self, key: Key, number: i64) -> Result<(), AllocError>
        ensures ok { OnOk result (self.new ≡ insert self.old key number) }
        ensures err { OnErr result (self.new ≡ self.old) }
    {
        self.numbers.insert(key, number)?;
        Ok(())
    }
}

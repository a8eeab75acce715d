//! The checks of a domain, by their names.
ghost use Rattle.std.specs.Prelude.{◌≡◌, OnOk, OnErr};
ghost use Rattle.std.specs.FinMap.{empty, entries, get, insert};
ghost use Rattle.std.specs.Option.{option_copied};

use copy_text::{Name, Text};
use std::alloc::{AllocError, Global};
use std::collections::BTreeMap;
use std::collections::btree_map::Iter;
use std::marker::Model;

/// The expressions of checks, by the checks' names. A contract sees a finite map from names to texts.
#[derive(Drop)]
pub struct Checks {
    texts: BTreeMap<Name, Text>,
}

impl Model for Checks {
    ghost use Rattle.std.specs.Prelude.{List, ℕ};
    ghost use Rattle.std.specs.Coded.{coded_list, coded_ℕ};
    ghost use Rattle.std.specs.FinMap.{FinMap, from_entries, code};
    ghost use Rattle.cat_model.specs.Holders.{bytes_cmp};

    ghost Value = { FinMap bytes_cmp (List ℕ) };

    ghost coded = { code (coded_list coded_ℕ) (coded_list coded_ℕ) };

    ghost view = { λ c. from_entries c.texts.entries };
}

impl Checks {
    /// No checks.
    pub fn new(alloc: Global) -> Checks
        ensures { result ≡ empty }
    {
        Checks {
            texts: BTreeMap::new(alloc),
        }
    }

    /// The expression of a check.
    pub fn get(&self, name: &Name) -> Option<&Text>
        ensures { option_copied result ≡ get self.now name.now }
    {
        self.texts.get(name)
    }

    /// Gives a check an expression in place of the one that it had. After an `Err` all is as it was.
    pub fn put(&mut self, name: Name, text: Text) -> Result<(), AllocError>
        ensures ok { OnOk result (self.new ≡ insert self.old name text) }
        ensures err { OnErr result (self.new ≡ self.old) }
    {
        self.texts.insert(name, text)?;
        Ok(())
    }

    /// The checks in the order of their names.
    pub fn iter(&self) -> Iter<'_, Name, Text>
        ensures { result ≡ entries self.now }
    {
        self.texts.iter()
    }
}

impl Clone for Checks {
    ghost is_clone = { λ a b. b ≡ a };

    fn clone(&self) -> Result<Checks, AllocError> {
        Ok(Checks {
            texts: self.texts.clone()?,
        })
    }
}

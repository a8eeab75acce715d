//! The rights on an object, by who has them.
ghost use Rattle.std.specs.Prelude.{◌≡◌, OnOk, OnErr};
ghost use Rattle.std.specs.FinMap.{empty, entries, get, insert, remove};

use crate::holder::{Holder, Item};
use std::alloc::{AllocError, Global};
use std::collections::BTreeMap;
use std::collections::btree_map::Iter;
use std::marker::Model;

/// The rights on an object, by their holders. A contract sees a finite map from holders to items.
#[derive(Drop)]
pub struct Grants {
    items: BTreeMap<Holder, Item>,
}

impl Model for Grants {
    ghost use Rattle.std.specs.FinMap.{FinMap, from_entries, code};
    ghost use Rattle.cat_model.specs.Holders.{holder_cmp};
    ghost use Rattle.cat_model.specs.contracts.holder.Holder as holder;
    ghost use Rattle.cat_model.specs.contracts.holder.Item as item;
    ghost use Rattle.cat_model.specs.declared.holder.Item.{Item};

    ghost Value = { FinMap holder_cmp Item };

    ghost coded = { code holder.the_row.coded item.the_row.coded };

    ghost view = { λ g. from_entries g.items.entries };
}

impl Grants {
    /// No one has rights.
    pub fn new(alloc: Global) -> Grants
        ensures { result ≡ empty }
    {
        Grants {
            items: BTreeMap::new(alloc),
        }
    }

    /// What a holder has.
    pub fn get(&self, holder: &Holder) -> Option<Item>
        ensures { result ≡ get self.now holder.now }
    {
        self.items.get(holder).copied()
    }

    /// Gives a holder these rights in place of those that it had. After an `Err` all is as it was.
    pub fn put(&mut self, holder: Holder, item: Item) -> Result<(), AllocError>
        ensures ok { OnOk result (self.new ≡ insert self.old holder item) }
        ensures err { OnErr result (self.new ≡ self.old) }
    {
        self.items.insert(holder, item)?;
        Ok(())
    }

    /// Takes a holder's rights away.
    pub fn take(&mut self, holder: &Holder)
        ensures { self.new ≡ remove self.old holder.now }
    {
        self.items.remove(holder);
    }

    /// Who has rights and which, in the order of holders.
    pub fn iter(&self) -> Iter<'_, Holder, Item>
        ensures { result ≡ entries self.now }
    {
        self.items.iter()
    }
}

impl Clone for Grants {
    ghost is_clone = { λ a b. b ≡ a };

    fn clone(&self) -> Result<Grants, AllocError> {
        Ok(Grants {
            items: self.items.clone()?,
        })
    }
}

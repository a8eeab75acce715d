//! Which tables have which parents.
ghost use Rattle.std.specs.Prelude.{◌≡◌, [], ◌∷◌, ◌++◌, OnOk, OnErr};

use crate::object::QName;
use std::alloc::{AllocError, Global};
use std::marker::Model;

/// Pairs of a table and a parent of one of its foreign keys. A contract sees them as the list of the pairs.
#[derive(Drop)]
pub struct FkSet {
    pairs: Vec<(QName, QName)>,
}

impl Model for FkSet {
    ghost use Rattle.std.specs.Prelude.{List};
    ghost use Rattle.cat_model.specs.declared.object.QName.{QName};

    ghost Value = { List (QName × QName) };

    ghost view = { λ a. a.pairs.items };
}

impl FkSet {
    /// No pairs.
    pub fn new(alloc: Global) -> FkSet
        ensures { result ≡ [] }
    {
        FkSet {
            pairs: Vec::new(alloc),
        }
    }

    /// One more pair, which may be there already. Without memory the set stays as it is.
    pub fn put(&mut self, child: QName, parent: QName) -> Result<(), AllocError>
        ensures ok { OnOk result (self.new ≡ self.old ++ (child, parent) ∷ []) }
        ensures memory { OnErr result (self.new ≡ self.old) }
    {
        self.pairs.push((child, parent))?;
        Ok(())
    }

    /// The pairs.
    pub fn as_slice(&self) -> &[(QName, QName)]
        ensures { result.now ≡ self.now }
    {
        &self.pairs
    }
}

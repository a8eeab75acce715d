//! The key of a row.
ghost use Rattle.std.specs.Prelude.{◌≡◌, [], ◌∷◌, ◌++◌, OnOk, OnErr, IfOk, nat_eq};
ghost use Rattle.std.specs.Hash as fed;
ghost use Rattle.std.specs.Cmp.{partial_equiv_from_equiv, unsigned_Decides};
ghost use Rattle.std.specs.Cmp.Lexicographic.{pointwise, pointwise_decides, lists_equiv, nat_list_eq_equiv};

use std::alloc::{AllocError, Global};
use std::hash::{Hash, Hasher};
use std::marker::Model;

/// What a row is compared by: its fields in the columns of a key, none of which is null. A contract sees a key as the
/// list of these.
#[derive(Drop)]
pub struct RowKey<'a> {
    fields: Vec<&'a [u8]>,
}

impl<'a> Model for RowKey<'a> {
    ghost use Rattle.std.specs.Prelude.{List, ℕ, map};

    ghost Value = { List (List ℕ) };

    ghost view = { λ k. map (λ f. f.now) k.fields.items };
}

impl<'a> RowKey<'a> {
    /// A key of no fields, with room for so many. The error says that there was no memory.
    pub fn with_capacity(alloc: Global, fields: usize) -> Result<RowKey<'a>, AllocError>
        ensures { IfOk result (λ k. k ≡ []) }
    {
        Ok(RowKey {
            fields: Vec::with_capacity(alloc, fields)?,
        })
    }

    /// Adds a field at the end. After an `Err` the key is as it was.
    pub fn push(&mut self, field: &'a [u8]) -> Result<(), AllocError>
        ensures ok { OnOk result (self.new ≡ self.old ++ field.now ∷ []) }
        ensures err { OnErr result (self.new ≡ self.old) }
    {
        self.fields.push(field)?;
        Ok(())
    }
}

impl<'a> PartialEq for RowKey<'a> {
    ghost eq = { pointwise (pointwise nat_eq) };

    ghost laws = { partial_equiv_from_equiv (lists_equiv nat_list_eq_equiv) };

    fn eq(&self, other: &RowKey<'a>) -> bool {
        self.fields == other.fields
    }
}

impl<'a> Eq for RowKey<'a> {
    ghost laws = { lists_equiv nat_list_eq_equiv };
}

impl<'a> Hash for RowKey<'a> {
    ghost hash_input = { fed.slice (fed.slice fed.u8) };

    ghost respects_eq = { (fed.same_Alike (fed.slice (fed.slice fed.u8)) (pointwise_decides (pointwise_decides unsigned_Decides))).fed };

    fn hash<H: Hasher>(&self, state: &mut H) {
        self.fields.hash(state);
    }
}

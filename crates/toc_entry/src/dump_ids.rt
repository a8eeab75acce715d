//! Lists of dump ids.
ghost use Rattle.std.specs.Prelude.{◌≡◌, nat_eq};
ghost use Rattle.std.specs.Cmp.{partial_equiv_from_equiv};
ghost use Rattle.std.specs.Cmp.Lexicographic.{pointwise, nat_list_eq_equiv};

use std::alloc::AllocError;
use std::marker::Model;

/// Dump ids, in the order in which an entry lists them. A contract sees them as a list of numbers.
#[derive(Drop)]
pub struct DumpIds {
    ids: Vec<u32>,
}

impl Model for DumpIds {
    ghost use Rattle.std.specs.Prelude.{List, ℕ};

    ghost Value = { List ℕ };

    ghost view = { λ d. d.ids.items };
}

impl DumpIds {
    /// The list of these ids. It takes no memory.
    pub fn from_vec(ids: Vec<u32>) -> DumpIds
        ensures { result ≡ ids.items }
    {
        DumpIds { ids }
    }

    /// The ids.
    pub fn as_slice(&self) -> &[u32]
        ensures { result.now ≡ self.now }
    {
        &self.ids
    }
}

impl Clone for DumpIds {
    ghost is_clone = { λ d e. e ≡ d };

    fn clone(&self) -> Result<DumpIds, AllocError> {
        Ok(DumpIds {
            ids: self.ids.clone()?,
        })
    }
}

impl PartialEq for DumpIds {
    ghost eq = { pointwise nat_eq };

    ghost laws = { partial_equiv_from_equiv nat_list_eq_equiv };

    fn eq(&self, other: &DumpIds) -> bool {
        self.as_slice() == other.as_slice()
    }
}

impl Eq for DumpIds {
    ghost laws = { nat_list_eq_equiv };
}

//! Who has rights on an object, and which.
ghost use Rattle.std.specs.Prelude.{◌≡◌, refl};
ghost use Rattle.std.specs.Ordering.{as_partial_cmp, eq_by_cmp};
ghost use Rattle.std.specs.Cmp.{eq_by_cmp_equiv, partial_equiv_from_equiv, po};
ghost use Rattle.cat_model.specs.Holders.{holder_cmp};
ghost use Rattle.cat_model.specs.HolderLaws.{holder_cmp_total};

use crate::grant::Rights;
use copy_text::Name;
use std::alloc::AllocError;
use std::cmp::Ordering;

/// Who has rights on an object; they are ordered as they are listed, roles by their names' bytes.
#[derive(Drop)]
pub enum Holder {
    /// Its owner, whoever that is.
    Owner,
    /// Every role.
    Public,
    /// One role.
    Role(Name),
}

/// The rights that one has on an object.
#[derive(Clone, Copy, PartialEq, Eq)]
pub struct Item {
    /// All of them.
    pub rights: Rights,
    /// Those that may be granted on.
    pub options: Rights,
}

fn compare(a: &Holder, b: &Holder) -> Ordering
    ensures { result ≡ holder_cmp a.now b.now }
{
    match a {
        Holder::Owner => match b {
            Holder::Owner => Ordering::Equal,
            _ => Ordering::Less,
        },
        Holder::Public => match b {
            Holder::Owner => Ordering::Greater,
            Holder::Public => Ordering::Equal,
            Holder::Role(_) => Ordering::Less,
        },
        Holder::Role(name) => match b {
            Holder::Role(other) => name.cmp(other),
            _ => Ordering::Greater,
        },
    }
}

impl Clone for Holder {
    ghost is_clone = { λ a b. b ≡ a };

    fn clone(&self) -> Result<Holder, AllocError> {
        match self {
            Holder::Owner => Ok(Holder::Owner),
            Holder::Public => Ok(Holder::Public),
            Holder::Role(name) => Ok(Holder::Role(name.clone()?)),
        }
    }
}

impl PartialEq for Holder {
    ghost eq = { eq_by_cmp holder_cmp };

    ghost laws = { partial_equiv_from_equiv (eq_by_cmp_equiv holder_cmp_total) };

    fn eq(&self, other: &Holder) -> bool {
        compare(self, other).is_eq()
    }
}

impl Eq for Holder {
    ghost laws = { eq_by_cmp_equiv holder_cmp_total };
}

impl PartialOrd for Holder {
    ghost partial_cmp = { as_partial_cmp holder_cmp };

    ghost laws = { po holder_cmp_total (λ x y. refl) };

    fn partial_cmp(&self, other: &Holder) -> Option<Ordering> {
        Some(self.cmp(other))
    }
}

impl Ord for Holder {
    ghost cmp = { holder_cmp };

    ghost total = { holder_cmp_total };

    ghost matches_partial_cmp = { λ x y. refl };

    ghost matches_eq = { λ x y. refl };

    fn cmp(&self, other: &Holder) -> Ordering {
        compare(self, other)
    }
}

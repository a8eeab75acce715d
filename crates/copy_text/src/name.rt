//! A name: what PostgreSQL's system tables keep of an identifier.
ghost use Rattle.std.specs.Prelude.{◌≡◌, ◌↔◌, List, ℕ, IsSome, IfSome, if◌then◌else◌, IsTrue, nat_eq, refl};
ghost use Rattle.std.specs.Ordering.{nat_cmp, as_partial_cmp};
ghost use Rattle.std.specs.Hash as fed;
ghost use Rattle.std.specs.Cmp.Lexicographic.{pointwise, slice_cmp, nat_list_cmp_total, texts_ties, texts_po, nat_list_eq_equiv};
ghost use Rattle.std.specs.Cmp.{partial_equiv_from_equiv};
ghost use Rattle.std.specs.Cmp.Rules.{hashing};
ghost use Rattle.std.proofs.Common.{rules};
ghost use Rattle.copy_text.specs.Texts.{IsName, is_name};

use std::alloc::AllocError;
use std::cmp::Ordering;
use std::hash::{Hash, Hasher};
use std::marker::Model;

/// 1 to 63 bytes of UTF-8 without the byte 0. A contract sees a name as the list of its bytes.
#[derive(Drop)]
pub struct Name {
    bytes: Vec<u8>,
}

impl Model for Name {
    ghost use Rattle.std.specs.Prelude.{List, ℕ};
    ghost use Rattle.copy_text.specs.Texts.{IsName};

    ghost Value = { List ℕ };

    ghost view = { λ t. t.bytes.items };

    ghost invariant = { λ t. IsName t.bytes.items };
}

impl Name {
    /// The name of these bytes, where they are one. It takes no memory.
    pub fn new(bytes: Vec<u8>) -> Option<Name>
        ensures valid { IsSome result ↔ IsName bytes.items }
        ensures value { IfSome result (λ t. t ≡ bytes.items) }
        ensures exact { result ≡ (if is_name bytes.items then Some bytes.items else None) }
    {
        if is_name(&bytes) {
            Some(Name { bytes })
        } else {
            None
        }
    }

    /// The bytes.
    pub fn as_bytes(&self) -> &[u8]
        ensures value { result.now ≡ self.now }
        ensures name { IsName result.now }
    {
        &self.bytes
    }

    /// The same bytes as a `&str`.
    pub fn as_str(&self) -> &str
        ensures { result.now ≡ self.now }
    {
        // Each name is UTF-8, so nothing is looked through again.
        unsafe { str::from_utf8_unchecked(&self.bytes) }
    }
}

// At most as many bytes as an identifier keeps (NAMEDATALEN less one).
const LONGEST: usize = 63;

fn is_name(bytes: &[u8]) -> bool
    ensures holds { IsTrue result ↔ IsName bytes.now }
    ensures value { result ≡ is_name bytes.now }
{
    !bytes.is_empty()
        && bytes.len() <= LONGEST
        && !bytes.contains(&0)
        && str::from_utf8(bytes).is_ok()
}

impl Clone for Name {
    ghost is_clone = { λ t u. u ≡ t };

    fn clone(&self) -> Result<Name, AllocError> {
        Ok(Name {
            bytes: self.bytes.clone()?,
        })
    }
}

impl PartialEq for Name {
    ghost eq = { pointwise nat_eq };

    ghost laws = { partial_equiv_from_equiv nat_list_eq_equiv };

    fn eq(&self, other: &Name) -> bool {
        self.as_bytes() == other.as_bytes()
    }
}

impl Eq for Name {
    ghost laws = { nat_list_eq_equiv };
}

impl PartialOrd for Name {
    ghost partial_cmp = { as_partial_cmp (slice_cmp nat_cmp) };

    ghost laws = { texts_po };

    fn partial_cmp(&self, other: &Name) -> Option<Ordering> {
        Some(self.cmp(other))
    }
}

impl Ord for Name {
    ghost cmp = { slice_cmp nat_cmp };

    ghost total = { nat_list_cmp_total };

    ghost matches_partial_cmp = { λ x y. refl };

    ghost matches_eq = { texts_ties };

    fn cmp(&self, other: &Name) -> Ordering {
        self.as_bytes().cmp(other.as_bytes())
    }
}

impl Hash for Name {
    ghost hash_input = { fed.slice fed.u8 };

    ghost respects_eq = { Prim.search (hashing, rules) };

    fn hash<H: Hasher>(&self, state: &mut H) {
        self.as_bytes().hash(state);
    }
}

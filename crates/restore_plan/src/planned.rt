//! Entries in their places in a list.
ghost use Rattle.std.specs.Prelude.{◌≡◌};
ghost use Rattle.std.specs.List.{list_any};
ghost use Rattle.restore_plan.specs.Entries.{is_among};
ghost use Rattle.restore_plan.specs.Order.{before as the_order, clash as the_clash};

use crate::step::Step;
use cat_model::{Footprint, Items, conflicts};

/// An entry in its place in a list.
#[derive(Drop)]
pub struct Planned {
    /// Its dump id.
    pub id: u32,
    /// The dump ids of the earlier entries that it depends on, in the order in which it lists them.
    pub deps: Items<u32>,
    /// Those of the earlier entries that it locks.
    pub locks: Items<u32>,
    /// What its statements read and write.
    pub footprint: Footprint,
    /// Its statements, in order.
    pub steps: Items<Step>,
}

fn is_among(id: u32, ids: &[u32]) -> bool
    ensures { result ≡ is_among id ids.now }
{
    ids.iter().any(|other| *other == id)
}

fn have_common(ids: &[u32], others: &[u32]) -> bool
    ensures { result ≡ list_any (λ id. is_among id others.now) ids.now }
{
    ids.iter().any(|id| is_among(*id, others))
}

impl Planned {
    /// Whether it has to end before a later entry starts: that one depends on it, or one of the two writes what the other
    /// reads or writes. It takes no memory.
    pub fn is_before(&self, later: &Planned) -> bool
        ensures { result ≡ the_order self.now later.now }
    {
        is_among(self.id, later.deps.as_slice()) || conflicts(&self.footprint, &later.footprint)
    }

    /// Whether the two lock one same entry. It takes no memory.
    pub fn clashes(&self, other: &Planned) -> bool
        ensures { result ≡ the_clash self.now other.now }
    {
        have_common(self.locks.as_slice(), other.locks.as_slice())
    }
}

//! Entries that were refused or skipped.
ghost use Rattle.std.specs.Prelude.{◌≡◌, ◌==◌, ◌&&◌, ◌||◌, ℕ, OnOk};
ghost use Rattle.std.specs.Ordering.{nat_cmp};
ghost use Rattle.std.specs.BTreeSet.{contains};
ghost use Rattle.std.specs.List.{find};

use std::alloc::AllocError;
use std::collections::BTreeSet;

/// The dump ids of entries that were refused or skipped.
pub(crate) type Blocked = BTreeSet<u32>;

fn add(blocked: &mut Blocked, id: u32) -> Result<(), AllocError>
    ensures { OnOk result ((q : ℕ) → contains nat_cmp blocked.new q ≡ (id == q || contains nat_cmp blocked.old q)) }
{
    blocked.insert(id)?;
    Ok(())
}

/// An entry has ended; `blocks` says that it was refused or skipped.
pub(crate) fn end(blocked: &mut Blocked, id: u32, blocks: bool) -> Result<(), AllocError>
    ensures { OnOk result ((q : ℕ) → contains nat_cmp blocked.new q ≡ ((id == q && blocks) || contains nat_cmp blocked.old q)) }
{
    if blocks { add(blocked, id) } else { Ok(()) }
}

fn is_blocked(blocked: &Blocked, id: u32) -> bool
    ensures { result ≡ contains nat_cmp blocked.now id }
{
    blocked.contains(&id)
}

/// The first dependency that was refused or skipped.
pub(crate) fn first_blocked(blocked: &Blocked, deps: &[u32]) -> Option<u32>
    ensures { result ≡ find (contains nat_cmp blocked.now) deps.now }
{
    deps.iter().copied().find(|id| is_blocked(blocked, *id))
}

//! A queue in which no entry has begun.
ghost use Rattle.std.specs.Prelude.{◌≡◌, length, replicate, IfOk};
ghost use Rattle.restore_core.specs.declared.phase.Phase.TheVariants as phases;
ghost use Rattle.restore_queue.specs.Indexed.{AreMarked};

use crate::waiting::{BLOCK, mark_anew};
use restore_core::Phase;
use std::alloc::{AllocError, Global};

/// So many entries that wait.
pub(crate) fn all_waiting(alloc: Global, many: usize) -> Result<Vec<Phase>, AllocError>
    ensures { IfOk result (λ v. v.items ≡ replicate many phases.Waiting) }
{
    let mut entries = Vec::new(alloc);
    for _ in 0..many {
        entries.push(Phase::Waiting)?;
    }
    Ok(entries)
}

/// So many times the same.
pub(crate) fn repeated<T: Copy + Drop>(
    alloc: Global,
    item: T,
    many: usize,
) -> Result<Vec<T>, AllocError>
    ensures { IfOk result (λ v. v.items ≡ replicate many item) }
{
    let mut items = Vec::new(alloc);
    for _ in 0..many {
        items.push(item)?;
    }
    Ok(items)
}

/// Takes the mark from each block of which no entry is ready.
pub(crate) fn mark_all(phases: &[Phase], waits: &[Vec<usize>], met: &[usize], marks: &mut Vec<bool>)
    requires { AreMarked phases.now waits.now met.now marks.old.items }
    ensures marked { AreMarked phases.now waits.now met.now marks.new.items }
    ensures len { length marks.new.items ≡ length marks.old.items }
{
    for at in 0..marks.len() {
        mark_anew(phases, waits, met, marks, at.saturating_mul(BLOCK));
    }
}

//! What each worker runs.
ghost use Rattle.std.specs.Prelude.{◌≡◌, ◌<◌, ℕ, false, None, is_none, IfNone, IfSome};
ghost use Rattle.std.specs.List.{list_any, slice_get};
ghost use Rattle.std.specs.Option.{option_map_or};
ghost use Rattle.restore_plan.specs.Order.{clash};
ghost use Rattle.restore_queue.specs.Lined.{AreGoing};
ghost use Rattle.restore_queue.specs.Workers.{clash_in, entry_in, is_any};

use restore_plan::Planned;

/// The place of the entry that a worker runs, if it runs one.
pub(crate) fn entry_in(running: &[Option<usize>], worker: u32) -> Option<usize>
    ensures { result ≡ entry_in running.now worker }
{
    match running.get(worker as usize) {
        Some(entry) => *entry,
        None => None,
    }
}

fn is_any(entry: &Option<usize>) -> bool
    ensures { result ≡ is_any entry.now }
{
    matches!(entry, Some(_))
}

/// Whether any worker runs an entry.
pub(crate) fn any_runs(running: &[Option<usize>]) -> bool
    ensures { result ≡ list_any is_any running.now }
{
    running.iter().any(is_any)
}

fn clashes_at(plan: &[Planned], planned: &Planned, j: usize) -> bool
    ensures { result ≡ option_map_or (clash planned.now) (slice_get plan.now j) false }
{
    match plan.get(j) {
        Some(other) => planned.clashes(other),
        None => false,
    }
}

fn clash_in(plan: &[Planned], planned: &Planned, entry: &Option<usize>) -> bool
    ensures { result ≡ clash_in plan.now planned.now entry.now }
{
    match entry {
        Some(j) => clashes_at(plan, planned, *j),
        None => false,
    }
}

/// Whether an entry that a worker runs locks one that this one locks.
pub(crate) fn any_clashes(plan: &[Planned], running: &[Option<usize>], planned: &Planned) -> bool
    ensures { result ≡ list_any (clash_in plan.now planned.now) running.now }
{
    running.iter().any(|entry| clash_in(plan, planned, entry))
}

/// How many workers there are at most.
pub(crate) const WORKERS: usize = 64;

/// The first worker that runs an entry.
pub(crate) fn first_worker(running: &[Option<usize>]) -> Option<u32>
    ensures some { IfSome result (λ worker. (worker < 64) × (is_none (entry_in running.now worker) ≡ false)) }
    ensures first { IfSome result (λ worker. (k : ℕ) → k < worker → entry_in running.now k ≡ None) }
    ensures none { IfNone result ((worker : ℕ) → worker < 64 → entry_in running.now worker ≡ None) }
{
    for worker in 0..WORKERS as u32 {
        if entry_in(running, worker).is_some() {
            return Some(worker);
        }
    }
    None
}

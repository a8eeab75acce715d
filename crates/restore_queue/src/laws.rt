//! What is kept where an entry goes into another phase: each is the contract of a function that does nothing.
ghost use Rattle.std.specs.Prelude.{◌≡◌, ◌<◌, ◌≤◌, ◌*◌, ℕ, Bool, false, true, List, length, replicate, slice_set, Option, Some, None};
ghost use Rattle.std.specs.Global.{Vec as TheVec};
ghost use Rattle.std.specs.List.{slice_get};
ghost use Rattle.restore_plan.specs.declared.planned.Planned.{Planned as ThePlanned};
ghost use Rattle.restore_plan.specs.declared.status.EntryStatus.{EntryStatus as TheStatus};
ghost use Rattle.restore_core.specs.Phases.{has_ended, is_waiting};
ghost use Rattle.restore_core.specs.declared.phase.Phase.{Phase as ThePhase};
ghost use Rattle.restore_core.specs.declared.phase.Phase.TheVariants.{Waiting, Running, Ended};
ghost use Rattle.restore_queue.specs.Indexed.{AllMet, AllNearly, AreMarked, Kept, block};
ghost use Rattle.restore_queue.specs.Ready.{AllWaited, ended_in};
ghost use Rattle.restore_queue.specs.Workers.{entry_in};

/// Where an entry ends, what is kept of places that were met is right but for its place; where it starts or goes on, it
/// stays right. The marks stay right where an entry goes into a phase in which it doesn't wait.
pub fn phases_change()
    ensures ends { (phases : List ThePhase) (p : ThePhase) (waits : List (TheVec ℕ)) (met : List ℕ) (j : ℕ) → j < length phases → has_ended p ≡ true → AllMet phases waits met → AllNearly (slice_set phases j p) waits met j }
    ensures goes_on { (phases : List ThePhase) (p : ThePhase) (waits : List (TheVec ℕ)) (met : List ℕ) (j : ℕ) → j < length phases → has_ended p ≡ false → ended_in phases j ≡ false → AllMet phases waits met → AllMet (slice_set phases j p) waits met }
    ensures marks { (phases : List ThePhase) (p : ThePhase) (waits : List (TheVec ℕ)) (met : List ℕ) (marks : List Bool) (j : ℕ) → j < length phases → is_waiting p ≡ false → AreMarked phases waits met marks → AreMarked (slice_set phases j p) waits met marks }
{}

/// Where an entry starts, goes on, ends or is skipped, all that is kept stays right: as it is where it starts or goes on, and
/// where it ends or is skipped with what is met and marked then, as `meet_all` leaves it.
pub fn entries_move()
    ensures starts { (plan : List ThePlanned) (phases : List ThePhase) (waits : List (TheVec ℕ)) (met : List ℕ) (marks : List Bool) (running : List (Option ℕ)) (worker i : ℕ) → Kept plan phases waits met marks running → worker < 64 → slice_get phases i ≡ Some Waiting → entry_in running worker ≡ None → Kept plan (slice_set phases i (Running worker 0)) waits met marks (slice_set running worker (Some i)) }
    ensures goes_on { (plan : List ThePlanned) (phases : List ThePhase) (waits : List (TheVec ℕ)) (met : List ℕ) (marks : List Bool) (running : List (Option ℕ)) (worker i run next : ℕ) → Kept plan phases waits met marks running → slice_get phases i ≡ Some (Running worker run) → Kept plan (slice_set phases i (Running worker next)) waits met marks running }
    ensures ends { (plan : List ThePlanned) (phases : List ThePhase) (waits : List (TheVec ℕ)) (met met' : List ℕ) (marks marks' : List Bool) (running : List (Option ℕ)) (worker i run : ℕ) (status : TheStatus) → Kept plan phases waits met marks running → slice_get phases i ≡ Some (Running worker run) → length met' ≡ length met → AllMet (slice_set phases i (Ended status)) waits met' → AreMarked (slice_set phases i (Ended status)) waits met' marks' → Kept plan (slice_set phases i (Ended status)) waits met' marks' (slice_set running worker None) }
    ensures skips { (plan : List ThePlanned) (phases : List ThePhase) (waits : List (TheVec ℕ)) (met met' : List ℕ) (marks marks' : List Bool) (running : List (Option ℕ)) (i : ℕ) (status : TheStatus) → Kept plan phases waits met marks running → slice_get phases i ≡ Some Waiting → length met' ≡ length met → AllMet (slice_set phases i (Ended status)) waits met' → AreMarked (slice_set phases i (Ended status)) waits met' marks' → Kept plan (slice_set phases i (Ended status)) waits met' marks' running }
{}

/// Where no entry has begun, no place has been met, each of enough blocks is marked and no worker runs an entry, all that is
/// kept is right.
pub fn nothing_has_begun()
    ensures { (plan : List ThePlanned) (waits : List (TheVec ℕ)) (blocks : ℕ) → AllWaited plan waits → length waits ≡ length plan → length plan ≤ blocks * block → Kept plan (replicate (length plan) Waiting) waits (replicate (length plan) 0) (replicate blocks true) (replicate 64 None) }
{}

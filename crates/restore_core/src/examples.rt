//! Worked examples, whatever the schedule: each is the contract of a function that does nothing.
ghost use Rattle.std.specs.Prelude.{◌≡◌, Bool, true, false, List, [], ◌∷◌, take, codes};
ghost use Rattle.cat_model.specs.declared.cause.Cause.TheVariants as cause;
ghost use Rattle.cat_model.specs.declared.key.Key.TheVariants as key;
ghost use Rattle.restore_plan.specs.Examples.{with_public, postgres, two_schemas, parents_first, children_first, equal_parents};
ghost use Rattle.restore_plan.specs.Order.{plan};
ghost use Rattle.restore_plan.specs.declared.status.EntryStatus.TheVariants.{Done, Refused, Skipped};
ghost use Rattle.restore_core.specs.Machine.{first, enabled, IsLegal, after, all_ended, result_of};
ghost use Rattle.restore_core.specs.Examples.{behind, phases, one_after_another, schemas_apart, both_at_once};
ghost use Rattle.restore_core.specs.declared.event.Event.{Event};
ghost use Rattle.restore_core.specs.declared.event.Event.TheVariants.{Start, Skip, Step};
ghost use Rattle.restore_core.specs.declared.phase.Phase.TheVariants.{Waiting, Running, Ended};

use crate::laws::any_schedule_is_serial;
use restore_plan::{one_schema_twice, parents_and_children};

/// Of two entries that create one schema the second is refused in every schedule. Of two tables with a foreign key and
/// their rows all is done in every schedule where the parents' rows are listed first; where the children's are, these
/// are refused and nothing is skipped; and where two parents have one key the primary key is refused, and the foreign
/// key is skipped.
pub fn same_in_every_schedule()
    ensures schemas { (events : List Event) → IsLegal postgres (first with_public (plan with_public two_schemas)) events → all_ended (after postgres (first with_public (plan with_public two_schemas)) events) ≡ true → (result_of (after postgres (first with_public (plan with_public two_schemas)) events)).statuses ≡ Done ∷ Refused 1 (cause.Exists (key.Schema (codes "a"))) ∷ [] }
    ensures parents { (events : List Event) → IsLegal postgres (first with_public (plan with_public parents_first)) events → all_ended (after postgres (first with_public (plan with_public parents_first)) events) ≡ true → (result_of (after postgres (first with_public (plan with_public parents_first)) events)).statuses ≡ Done ∷ Done ∷ Done ∷ Done ∷ Done ∷ Done ∷ [] }
    ensures children { (events : List Event) → IsLegal postgres (first with_public (plan with_public children_first)) events → all_ended (after postgres (first with_public (plan with_public children_first)) events) ≡ true → (result_of (after postgres (first with_public (plan with_public children_first)) events)).statuses ≡ Done ∷ Done ∷ Done ∷ Done ∷ Refused 1 (cause.NoParent (codes "c_fk") 1) ∷ Done ∷ [] }
    ensures equal { (events : List Event) → IsLegal postgres (first with_public (plan with_public equal_parents)) events → all_ended (after postgres (first with_public (plan with_public equal_parents)) events) ≡ true → (result_of (after postgres (first with_public (plan with_public equal_parents)) events)).statuses ≡ Done ∷ Done ∷ Done ∷ Done ∷ Refused 1 (cause.Duplicate (codes "p_pkey") 1 2) ∷ Skipped 10 ∷ [] }
{
    any_schedule_is_serial();
    one_schema_twice();
    parents_and_children();
}

/// Of two entries that create one schema the second waits: while the first runs, another worker can't start it, and it
/// can't be skipped; once the first has ended it can start, and it is refused.
pub fn the_second_waits()
    ensures legal { IsLegal postgres (behind two_schemas []) one_after_another }
    ensures begun { phases two_schemas (take 1 one_after_another) ≡ Running 0 0 ∷ Waiting ∷ [] }
    ensures no_start { enabled (behind two_schemas (take 1 one_after_another)) (Start 1 1) ≡ false }
    ensures no_skip { enabled (behind two_schemas (take 1 one_after_another)) (Skip 1) ≡ false }
    ensures idle { enabled (behind two_schemas (take 1 one_after_another)) (Step 1) ≡ false }
    ensures stepped { phases two_schemas (take 2 one_after_another) ≡ Ended Done ∷ Waiting ∷ [] }
    ensures started { phases two_schemas (take 3 one_after_another) ≡ Ended Done ∷ Running 1 0 ∷ [] }
    ensures refused { phases two_schemas one_after_another ≡ Ended Done ∷ Ended (Refused 1 (cause.Exists (key.Schema (codes "a")))) ∷ [] }
{}

/// Two entries that create one schema each run at once, and the second may end first.
pub fn two_workers_overlap()
    ensures legal { IsLegal postgres (behind schemas_apart []) both_at_once }
    ensures both_run { phases schemas_apart (take 2 both_at_once) ≡ Running 0 0 ∷ Running 1 0 ∷ [] }
    ensures second_first { phases schemas_apart (take 3 both_at_once) ≡ Running 0 0 ∷ Ended Done ∷ [] }
    ensures all { phases schemas_apart both_at_once ≡ Ended Done ∷ Ended Done ∷ [] }
{}

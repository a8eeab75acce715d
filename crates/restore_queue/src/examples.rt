//! Worked examples, each the contract of a function that does nothing.
ghost use Rattle.std.specs.Prelude.{◌≡◌, true, false, [], ◌∷◌};
ghost use Rattle.restore_core.specs.declared.event.Event.TheVariants.{Start};
ghost use Rattle.restore_core.specs.declared.phase.Phase.TheVariants.{Waiting, Running, Ended};
ghost use Rattle.restore_core.specs.Machine.{enabled};
ghost use Rattle.restore_plan.specs.Order.{before_at};
ghost use Rattle.restore_plan.specs.declared.status.EntryStatus.TheVariants.{Done};
ghost use Rattle.restore_queue.specs.Examples.{at_phases, five};

/// Two unique constraints of one table wait for one another though neither has to end before the other: both lock the
/// table's rows. A constraint doesn't wait for an index, which locks nothing, and starts while that is made.
pub fn locks_keep_apart()
    ensures no_order { before_at five 3 4 ≡ false }
    ensures kept_apart { enabled (at_phases (Ended Done ∷ Ended Done ∷ Ended Done ∷ Running 0 0 ∷ Waiting ∷ [])) (Start 1 4) ≡ false }
    ensures later_first { enabled (at_phases (Ended Done ∷ Ended Done ∷ Ended Done ∷ Waiting ∷ Running 0 0 ∷ [])) (Start 1 3) ≡ false }
    ensures free { enabled (at_phases (Ended Done ∷ Ended Done ∷ Ended Done ∷ Ended Done ∷ Waiting ∷ [])) (Start 1 4) ≡ true }
    ensures beside_index { enabled (at_phases (Ended Done ∷ Ended Done ∷ Running 0 0 ∷ Waiting ∷ Waiting ∷ [])) (Start 1 3) ≡ true }
{}

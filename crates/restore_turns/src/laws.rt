//! The laws of turns: each is the contract of a function that does nothing.
ghost use Rattle.std.specs.Prelude.{◌≡◌, ℕ, ◌+◌, ◌<◌, ◌≤◌, ◌↔◌, true, false, List, [], ◌∷◌, ◌++◌, length, Some};
ghost use Rattle.std.specs.List.{list_any};
ghost use Rattle.cat_model.specs.Values.{Bytes, Named};
ghost use Rattle.restore_plan.specs.declared.planned.Planned.{Planned};
ghost use Rattle.restore_plan.specs.Examples.{two_schemas};
ghost use Rattle.restore_core.specs.declared.event.Event.{Event};
ghost use Rattle.restore_core.specs.declared.event.Event.TheVariants.{Start, Skip, Step};
ghost use Rattle.restore_core.specs.Examples.{behind};
ghost use Rattle.restore_core.specs.Machine.{State, first, enabled, happens, IsLegal, after, all_ended};
ghost use Rattle.restore_core.specs.Phases.{is_running};
ghost use Rattle.restore_turns.specs.declared.turn.Turn.TheVariants as turns;
ghost use Rattle.restore_turns.specs.Turns.{turn, event_of};
ghost use Rattle.restore_turns.specs.Measures.{left, most_events};

/// A legal history with an event more that is enabled where it leads to is legal, and leads to what this event makes of that
/// state.
pub fn histories_go_on()
    ensures legal { (boot : Bytes) (s : State) (events : List Event) (e : Event) → IsLegal boot s events → enabled (after boot s events) e ≡ true → IsLegal boot s (events ++ e ∷ []) }
    ensures leads { (boot : Bytes) (s : State) (events : List Event) (e : Event) → after boot s (events ++ e ∷ []) ≡ happens boot (after boot s events) e }
{}

/// Each event that is enabled leaves less to do than there was before.
pub fn each_event_leaves_less()
    ensures { (boot : Bytes) (s : State) (e : Event) → enabled s e ≡ true → left (happens boot s e).entries < left s.entries }
{}

/// A legal history has at most two events for each entry and one for each of its statements.
pub fn histories_are_bounded()
    ensures rest { (boot : Bytes) (s : State) (events : List Event) → IsLegal boot s events → length events + left (after boot s events).entries ≤ left s.entries }
    ensures most { (boot : Bytes) (opening : Named) (ps : List Planned) (events : List Event) → IsLegal boot (first opening ps) events → length events ≤ most_events ps }
{}

/// What a worker begins by its turn is enabled.
pub fn turns_are_enabled()
    ensures { (worker : ℕ) (s : State) (e : Event) → event_of worker s (turn worker s) ≡ Some e → enabled s e ≡ true }
{}

/// A worker is finished exactly where every entry has ended.
pub fn finished_exactly_at_the_end()
    ensures { (worker : ℕ) (s : State) → (turn worker s ≡ turns.Finished) ↔ (all_ended s ≡ true) }
{}

/// A worker waits only while some entry runs, and while it can start and skip none.
pub fn not_yet_only_while_one_runs()
    ensures runs { (worker : ℕ) (s : State) → worker < 64 → turn worker s ≡ turns.NotYet → list_any (λ x. is_running x.phase) s.entries ≡ true }
    ensures no_start { (worker : ℕ) (s : State) (i : ℕ) → turn worker s ≡ turns.NotYet → enabled s (Start worker i) ≡ false }
    ensures no_skip { (worker : ℕ) (s : State) (i : ℕ) → turn worker s ≡ turns.NotYet → enabled s (Skip i) ≡ false }
{}

/// Two entries that create one schema, and two workers. The first worker starts the first entry, and the second waits. The
/// second starts the second entry once the first has ended; then both are finished.
pub fn turns_meet_the_examples()
    ensures first { turn 0 (behind two_schemas []) ≡ turns.Run 0 }
    ensures begins { event_of 0 (behind two_schemas []) (turns.Run 0) ≡ Some (Start 0 0) }
    ensures again { turn 0 (behind two_schemas (Start 0 0 ∷ [])) ≡ turns.Run 0 }
    ensures waits { turn 1 (behind two_schemas (Start 0 0 ∷ [])) ≡ turns.NotYet }
    ensures second { turn 1 (behind two_schemas (Start 0 0 ∷ Step 0 ∷ [])) ≡ turns.Run 1 }
    ensures finished { turn 0 (behind two_schemas (Start 0 0 ∷ Step 0 ∷ Start 1 1 ∷ Step 1 ∷ [])) ≡ turns.Finished }
    ensures whole { left (behind two_schemas []).entries ≡ 6 }
    ensures rest { left (behind two_schemas (Start 0 0 ∷ Step 0 ∷ [])).entries ≡ 3 }
{}

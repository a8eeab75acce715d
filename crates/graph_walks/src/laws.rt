//! Laws of the definitions, each the contract of a function that does nothing.
ghost use Rattle.std.specs.Prelude.{◌≡◌, ℕ, ◌+◌, ◌<◌, true, false, nat_eq, All, List, length, slice_index};
ghost use Rattle.std.specs.List.{IsDistinct};
ghost use Rattle.graph_walks.specs.Arcs.{Arc, needs, is_in, AreWithin};
ghost use Rattle.graph_walks.specs.Examples.{Reached, Orders, Cycles};
ghost use Rattle.graph_walks.specs.Filling.{order_of};
ghost use Rattle.graph_walks.specs.Leading.{Leads};
ghost use Rattle.graph_walks.specs.Reaching.{reaches, on_cycle};
ghost use Rattle.graph_walks.specs.Telling.{told_cycle, IsRound};

/// Worked examples, computed from the definitions.
pub fn worked_examples()
    ensures reached { Reached }
    ensures orders { Orders }
    ensures cycles { Cycles }
{}

/// What is found in rounds is what a place leads to: each set of places that holds with a place all that it needs.
pub fn reached_is_led_to()
    ensures found { (arcs : List Arc) (a b : ℕ) → reaches arcs a b ≡ true → Leads arcs a b }
    ensures all { (arcs : List Arc) (a b : ℕ) → Leads arcs a b → reaches arcs a b ≡ true }
{}

/// In an order each place stands behind those that it needs, and none stands twice. None of a cycle stands in it, and where
/// there is no cycle all places do.
pub fn orders_keep_needs()
    ensures behind { (count : ℕ) (arcs : List Arc) (i j : ℕ) → i < length (order_of count arcs) → j < length (order_of count arcs) → needs arcs (slice_index (order_of count arcs) i) (slice_index (order_of count arcs) j) ≡ true → j < i }
    ensures distinct { (count : ℕ) (arcs : List Arc) → IsDistinct nat_eq (order_of count arcs) }
    ensures among { (count : ℕ) (arcs : List Arc) (place : ℕ) → is_in place (order_of count arcs) ≡ true → place < count }
    ensures no_cycle { (count : ℕ) (arcs : List Arc) (a b : ℕ) → AreWithin count arcs → needs arcs a b ≡ true → on_cycle arcs (a, b) ≡ true → is_in b (order_of count arcs) ≡ false }
    ensures whole { (count : ℕ) (arcs : List Arc) → AreWithin count arcs → ((a b : ℕ) → needs arcs a b ≡ true → on_cycle arcs (a, b) ≡ false) → (place : ℕ) → place < count → is_in place (order_of count arcs) ≡ true }
{}

/// A cycle that is told ends where it begins, and is told where there is one.
pub fn told_cycles_return()
    ensures round { (count : ℕ) (arcs : List Arc) → AreWithin count arcs → IsRound (told_cycle count arcs) }
    ensures told { (count : ℕ) (arcs : List Arc) (a b : ℕ) → AreWithin count arcs → needs arcs a b ≡ true → on_cycle arcs (a, b) ≡ true → 1 < length (told_cycle count arcs) }
    ensures within { (count : ℕ) (arcs : List Arc) → All (λ place. place < count) (told_cycle count arcs) }
{}

/// Each step of a cycle that is told is an arc.
pub fn told_steps_are_arcs()
    ensures { (count : ℕ) (arcs : List Arc) (i : ℕ) → i + 1 < length (told_cycle count arcs) → needs arcs (slice_index (told_cycle count arcs) i) (slice_index (told_cycle count arcs) (i + 1)) ≡ true }
{}

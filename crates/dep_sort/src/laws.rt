//! Laws of the definitions, each the contract of a function that does nothing.
ghost use Rattle.std.specs.Prelude.{◌≡◌, ◌↔◌, ◌<◌, ℕ, [], List, Some, Ok, Err, All, true, false, is_some, length, map, slice_get, slice_index_or};
ghost use Rattle.graph_parts.specs.declared.graph.Edge.{Edge};
ghost use Rattle.graph_parts.specs.declared.object.Obj.{Obj};
ghost use Rattle.graph_parts.specs.declared.object.ObjId.{ObjId};
ghost use Rattle.graph_parts.specs.Parts.{Parts, IsGraph};
ghost use Rattle.graph_walks.specs.Arcs.{needs};
ghost use Rattle.graph_walks.specs.Leading.{Leads};
ghost use Rattle.graph_walks.specs.Reaching.{on_cycle};
ghost use Rattle.dep_sort.specs.Cut.{arc_of, is_breakable, breaks, made_at, made_of, cut};
ghost use Rattle.dep_sort.specs.Examples.{Orders, Cuts, Loops};
ghost use Rattle.dep_sort.specs.Ordering.{Sorted, due};
ghost use Rattle.dep_sort.specs.Sound.{IsOrder, IsLoop, IsKept, IsOnItsSide, breaks_for};

use graph_walks::laws::{
    orders_keep_needs, reached_is_led_to, told_cycles_return, told_steps_are_arcs,
};

/// Worked examples, computed from the definitions.
pub fn worked_examples()
    ensures orders { Orders }
    ensures cuts { Cuts }
    ensures loops { Loops }
{}

/// An order has each object of the cut graph once, leaves none out, and has each behind all that it needs.
pub fn orders_are_whole()
    ensures { (graph : Parts) (order : Sorted) → due graph ≡ Ok order → IsOrder (cut graph) order }
{
    orders_keep_needs();
}

/// The places that an object of an order needs are below its own.
pub fn needs_stand_before()
    ensures { (graph : Parts) (order : Sorted) → due graph ≡ Ok order → (i : ℕ) → i < length order.objects → All (λ at. at < i) (slice_index_or order.depends i []) }
{
    orders_are_whole();
}

/// Where there is an order, nothing of the cut graph lies on a cycle.
pub fn orders_have_no_cycle()
    ensures { (graph : Parts) (order : Sorted) → IsGraph graph.objects graph.edges → due graph ≡ Ok order → (a b : ℕ) → needs (cut graph).arcs a b ≡ true → on_cycle (cut graph).arcs (a, b) ≡ false }
{
    orders_are_whole();
    reached_is_led_to();
}

/// An edge breaks exactly where it is breakable and what it needs leads back to its beginning.
pub fn edges_break_on_cycles()
    ensures { (edges : List Edge) (edge : Edge) → (breaks edges edge ≡ true) ↔ ((is_breakable edge ≡ true) × Leads (map arc_of edges) edge.to edge.from) }
{
    reached_is_led_to();
}

/// An object is made exactly where an edge breaks that it can take over.
pub fn made_where_edges_break()
    ensures { (graph : Parts) (id : ObjId) → is_some (made_at (made_of graph) id) ≡ breaks_for graph.edges id }
{}

/// No edge is lost: it is there in the cut graph, or the object that takes it over needs both its ends.
pub fn edges_are_kept()
    ensures { (graph : Parts) → All (IsKept graph) graph.edges }
{}

/// A default that is made stands before the data, and a rule behind them.
pub fn made_stand_on_their_side()
    ensures { (graph : Parts) (at : ℕ) (object : Obj) → slice_get (made_of graph) at ≡ Some object → IsOnItsSide graph at object }
{}

/// A loop that is told begins and ends with the same object, and on it each object needs the next.
pub fn loops_return()
    ensures { (graph : Parts) (path : List ObjId) → IsGraph graph.objects graph.edges → due graph ≡ Err path → IsLoop (cut graph) path }
{
    orders_keep_needs();
    reached_is_led_to();
    told_steps_are_arcs();
    told_cycles_return();
}

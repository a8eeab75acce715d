//! Worked examples, each the contract of a function that does nothing.
ghost use Rattle.std.specs.Prelude.{◌≡◌, true, false};
ghost use Rattle.restore_plan.specs.Examples.{with_public, parents_first, children_first, equal_parents, two_schemas, behind_rows};
ghost use Rattle.restore_plan.specs.Order.{before_at, clash_at, plan};

/// Rows of a child wait for those of its parent where the foreign key stands earlier than both, and not where it stands
/// later; two tables don't wait for each other, and nobody waits for what comes later.
pub fn rows_wait_for_parents()
    ensures key_first { before_at (plan with_public parents_first) 4 5 ≡ true }
    ensures children_first { before_at (plan with_public children_first) 4 5 ≡ true }
    ensures key_later { before_at (plan with_public equal_parents) 2 3 ≡ false }
    ensures tables { before_at (plan with_public parents_first) 0 1 ≡ false }
    ensures later { before_at (plan with_public parents_first) 5 4 ≡ false }
{}

/// The second of two entries that make one schema waits for the first. Two constraints of one table clash, and an index
/// clashes with neither.
pub fn what_meets_and_clashes()
    ensures schemas { before_at (plan with_public two_schemas) 0 1 ≡ true }
    ensures constraints { clash_at (plan with_public behind_rows) 4 5 ≡ true }
    ensures index { clash_at (plan with_public behind_rows) 3 4 ≡ false }
{}

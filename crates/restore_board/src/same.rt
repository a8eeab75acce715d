//! Whether two plans are the same.
ghost use Rattle.std.specs.Prelude.{◌≡◌, ◌↔◌, IsTrue};

use cat_model::Items;
use restore_plan::{Planned, Step};
use same_statements::{same_footprint, same_statement};

fn same_ids(a: &Items<u32>, b: &Items<u32>) -> bool
    ensures { IsTrue result ↔ (a.now ≡ b.now) }
{
    a == b
}

fn same_step(a: &Step, b: &Step) -> bool
    ensures { IsTrue result ↔ (a.now ≡ b.now) }
{
    a.is_owner == b.is_owner && same_statement(&a.statement, &b.statement)
}

// Whether two entries have the same statements.
fn same_steps(a: &[Step], b: &[Step]) -> bool
    ensures { IsTrue result ↔ (a.now ≡ b.now) }
{
    if a.len() != b.len() {
        return false;
    }
    for (i, step) in a.iter().enumerate() {
        if !same_step(step, &b[i]) {
            return false;
        }
    }
    true
}

fn same_planned(a: &Planned, b: &Planned) -> bool
    ensures { IsTrue result ↔ (a.now ≡ b.now) }
{
    a.id == b.id
        && same_ids(&a.deps, &b.deps)
        && same_ids(&a.locks, &b.locks)
        && same_footprint(&a.footprint, &b.footprint)
        && same_steps(a.steps.as_slice(), b.steps.as_slice())
}

/// Whether two plans have the same entries in the same places.
pub(crate) fn same_plans(a: &[Planned], b: &[Planned]) -> bool
    ensures { IsTrue result ↔ (a.now ≡ b.now) }
{
    if a.len() != b.len() {
        return false;
    }
    for (i, planned) in a.iter().enumerate() {
        if !same_planned(planned, &b[i]) {
            return false;
        }
    }
    true
}

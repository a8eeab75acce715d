//! Places of entries that have to end before another starts.
ghost use Rattle.std.specs.Prelude.{◌≡◌, ◌<◌, true, ℕ, length, OnOk};
ghost use Rattle.std.specs.Ordering.{nat_cmp};
ghost use Rattle.std.specs.BTreeSet.{contains};
ghost use Rattle.std.specs.List.{AllByRecursion};
ghost use Rattle.cat_model.specs.declared.class.Mark.{Mark as TheMark};
ghost use Rattle.restore_plan.specs.Order.{before_at};
ghost use Rattle.plan_waits.specs.Buckets.{AreBefore, Covers, bucket, has, has_id, is_listed};

use crate::buckets::bucket;
use crate::index::{Ids, Index};
use cat_model::{Key, Mark};
use eng_steps::let_go_key;
use restore_plan::Planned;
use std::alloc::AllocError;
use std::collections::BTreeSet;

fn is_before(plan: &[Planned], i: usize, j: usize) -> bool
    requires { j < length plan.now }
    ensures { result ≡ before_at plan.now i j }
{
    match plan.get(i) {
        Some(earlier) => i < j && earlier.is_before(&plan[j]),
        None => false,
    }
}

// Adds a place, where its entry has to end before the j-th starts.
fn put_place(
    plan: &[Planned],
    i: usize,
    j: usize,
    found: &mut BTreeSet<usize>,
) -> Result<(), AllocError>
    requires there { j < length plan.now }
    requires sound { AreBefore plan.now j found.old }
    ensures kept { (q : ℕ) → contains nat_cmp found.old q ≡ true → contains nat_cmp found.new q ≡ true }
    ensures sound { AreBefore plan.now j found.new }
    ensures put { OnOk result (before_at plan.now i j ≡ true → contains nat_cmp found.new i ≡ true) }
{
    if is_before(plan, i, j) {
        found.insert(i)?;
    }
    Ok(())
}

// The same for several places.
fn put_places(
    plan: &[Planned],
    places: &[usize],
    j: usize,
    found: &mut BTreeSet<usize>,
) -> Result<(), AllocError>
    requires there { j < length plan.now }
    requires sound { AreBefore plan.now j found.old }
    ensures kept { (q : ℕ) → contains nat_cmp found.old q ≡ true → contains nat_cmp found.new q ≡ true }
    ensures sound { AreBefore plan.now j found.new }
    ensures covers { OnOk result (Covers plan.now j found.new (has places.now)) }
{
    for place in places {
        put_place(plan, *place, j, found)?;
    }
    Ok(())
}

// The same for the places that are listed under a key.
fn put_listed(
    plan: &[Planned],
    index: &Index,
    key: &Key,
    j: usize,
    found: &mut BTreeSet<usize>,
) -> Result<(), AllocError>
    requires there { j < length plan.now }
    requires sound { AreBefore plan.now j found.old }
    ensures kept { (q : ℕ) → contains nat_cmp found.old q ≡ true → contains nat_cmp found.new q ≡ true }
    ensures sound { AreBefore plan.now j found.new }
    ensures covers { OnOk result (Covers plan.now j found.new (is_listed index.now key.now)) }
{
    match index.get(key) {
        Some(places) => put_places(plan, places, j, found),
        None => Ok(()),
    }
}

fn put_mark(
    plan: &[Planned],
    index: &Index,
    mark: &Mark,
    j: usize,
    found: &mut BTreeSet<usize>,
) -> Result<(), AllocError>
    requires there { j < length plan.now }
    requires sound { AreBefore plan.now j found.old }
    ensures kept { (q : ℕ) → contains nat_cmp found.old q ≡ true → contains nat_cmp found.new q ≡ true }
    ensures sound { AreBefore plan.now j found.new }
    ensures covers { OnOk result (Covers plan.now j found.new (is_listed index.now (bucket mark.now))) }
{
    let key = bucket(mark)?;
    let put = put_listed(plan, index, &key, j, found);
    let_go_key(key);
    put
}

/// Adds the places that are listed under these marks, as far as their entries have to end before the j-th starts.
pub(crate) fn put_marks(
    plan: &[Planned],
    index: &Index,
    marks: &[Mark],
    j: usize,
    found: &mut BTreeSet<usize>,
) -> Result<(), AllocError>
    requires there { j < length plan.now }
    requires sound { AreBefore plan.now j found.old }
    ensures kept { (q : ℕ) → contains nat_cmp found.old q ≡ true → contains nat_cmp found.new q ≡ true }
    ensures sound { AreBefore plan.now j found.new }
    ensures covers { OnOk result (AllByRecursion (λ (m : TheMark). Covers plan.now j found.new (is_listed index.now (bucket m))) marks.now) }
{
    for mark in marks {
        put_mark(plan, index, mark, j, found)?;
    }
    Ok(())
}

fn put_id(
    plan: &[Planned],
    ids: &Ids,
    id: u32,
    j: usize,
    found: &mut BTreeSet<usize>,
) -> Result<(), AllocError>
    requires there { j < length plan.now }
    requires sound { AreBefore plan.now j found.old }
    ensures kept { (q : ℕ) → contains nat_cmp found.old q ≡ true → contains nat_cmp found.new q ≡ true }
    ensures sound { AreBefore plan.now j found.new }
    ensures covers { OnOk result (Covers plan.now j found.new (has_id ids.now id)) }
{
    match ids.get(&id) {
        Some(places) => put_places(plan, places, j, found),
        None => Ok(()),
    }
}

/// Adds the places that are listed under these dump ids, as far as their entries have to end before the j-th starts.
pub(crate) fn put_ids(
    plan: &[Planned],
    ids: &Ids,
    deps: &[u32],
    j: usize,
    found: &mut BTreeSet<usize>,
) -> Result<(), AllocError>
    requires there { j < length plan.now }
    requires sound { AreBefore plan.now j found.old }
    ensures kept { (q : ℕ) → contains nat_cmp found.old q ≡ true → contains nat_cmp found.new q ≡ true }
    ensures sound { AreBefore plan.now j found.new }
    ensures covers { OnOk result (AllByRecursion (λ (id : ℕ). Covers plan.now j found.new (has_id ids.now id)) deps.now) }
{
    for id in deps {
        put_id(plan, ids, *id, j, found)?;
    }
    Ok(())
}

//! What entries wait for.
ghost use Rattle.std.specs.Prelude.{◌≡◌, ◌<◌, ℕ, length, IfOk, OnOk};
ghost use Rattle.std.specs.Ordering.{nat_cmp};
ghost use Rattle.std.specs.BTreeSet.{contains};
ghost use Rattle.restore_plan.specs.Order.{before_at};
ghost use Rattle.plan_waits.specs.Buckets.{AreWaits, IsAt};

use crate::finding::{put_ids, put_marks};
use crate::index::{Ids, Index, add_id, add_marks};
use restore_plan::Planned;
use std::alloc::{AllocError, Global};
use std::collections::{BTreeMap, BTreeSet};

// The places of entries, under their dump ids, what they write and what they read.
#[derive(Drop)]
struct Listed {
    ids: Ids,
    writers: Index,
    readers: Index,
}

// Lists the j-th entry.
fn list_entry(
    alloc: Global,
    listed: &mut Listed,
    plan: &[Planned],
    j: usize,
) -> Result<(), AllocError>
    requires { j < length plan.now }
    ensures kept { OnOk result ((i : ℕ) → IsAt listed.old.ids listed.old.writers listed.old.readers plan.now i → IsAt listed.new.ids listed.new.writers listed.new.readers plan.now i) }
    ensures added { OnOk result (IsAt listed.new.ids listed.new.writers listed.new.readers plan.now j) }
{
    let entry = &plan[j];
    add_id(alloc, &mut listed.ids, entry.id, j)?;
    add_marks(
        alloc,
        &mut listed.writers,
        entry.footprint.writes.as_slice(),
        j,
    )?;
    add_marks(
        alloc,
        &mut listed.readers,
        entry.footprint.reads.as_slice(),
        j,
    )?;
    Ok(())
}

// The places of those that have to end before the j-th starts, where all earlier ones are listed.
fn waits_of(
    alloc: Global,
    listed: &Listed,
    plan: &[Planned],
    j: usize,
) -> Result<BTreeSet<usize>, AllocError>
    requires there { j < length plan.now }
    requires earlier { (i : ℕ) → i < j → IsAt listed.now.ids listed.now.writers listed.now.readers plan.now i }
    ensures { IfOk result (λ found. (i : ℕ) → contains nat_cmp found i ≡ before_at plan.now i j) }
{
    let entry = &plan[j];
    let mut found = BTreeSet::new(alloc);
    put_ids(plan, &listed.ids, entry.deps.as_slice(), j, &mut found)?;
    put_marks(
        plan,
        &listed.writers,
        entry.footprint.reads.as_slice(),
        j,
        &mut found,
    )?;
    put_marks(
        plan,
        &listed.writers,
        entry.footprint.writes.as_slice(),
        j,
        &mut found,
    )?;
    put_marks(
        plan,
        &listed.readers,
        entry.footprint.writes.as_slice(),
        j,
        &mut found,
    )?;
    Ok(found)
}

/// For each entry of a plan the places, from 0, of those earlier ones that have to end before it starts. An entry is tried
/// only against those that it depends on, and those that read or write near to what it reads and writes. The error is that
/// memory ran out.
pub fn all_waits(alloc: Global, plan: &[Planned]) -> Result<Vec<BTreeSet<usize>>, AllocError>
    ensures len { IfOk result (λ waits. length waits.items ≡ length plan.now) }
    ensures each { IfOk result (λ waits. AreWaits plan.now 0 waits.items) }
{
    let mut listed = Listed {
        ids: BTreeMap::new(alloc),
        writers: BTreeMap::new(alloc),
        readers: BTreeMap::new(alloc),
    };
    let mut waits = Vec::new(alloc);
    for j in 0..plan.len() {
        waits.push(waits_of(alloc, &listed, plan, j)?)?;
        list_entry(alloc, &mut listed, plan, j)?;
    }
    Ok(waits)
}

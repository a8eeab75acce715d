//! Entries in their places.
ghost use Rattle.std.specs.Prelude.{◌≡◌, ◌++◌, ◌∷◌, [], List, IfOk, OnOk};
ghost use Rattle.restore_plan.specs.declared.entry.Entry.{Entry as TheEntry};
ghost use Rattle.restore_plan.specs.Entries.{deps, locks};
ghost use Rattle.restore_plan.specs.Order.{footprint_of_steps, foreign_keys_in, plan_behind, planned};
ghost use Rattle.plan_entries.specs.Earlier.{AreEarlier};

use crate::earlier::Earlier;
use crate::footprints::{footprint_of_steps, put_foreign_keys};
use cat_model::{FkSet, Footprint, Items};
use restore_plan::{Entry, Planned};
use std::alloc::{AllocError, Global};

// What an entry depends on, locks, reads and writes.
#[derive(Drop)]
struct Place {
    deps: Items<u32>,
    locks: Items<u32>,
    footprint: Footprint,
}

fn place_of(
    alloc: Global,
    earlier: &Earlier,
    parents: &FkSet,
    entry: &Entry,
) -> Result<Place, AllocError>
    ensures deps { IfOk result (λ p. (es : List TheEntry) → AreEarlier earlier.now.ids earlier.now.lockable earlier.now.rows es → p.deps ≡ deps es entry.now) }
    ensures locks { IfOk result (λ p. (es : List TheEntry) → AreEarlier earlier.now.ids earlier.now.lockable earlier.now.rows es → p.locks ≡ locks es entry.now) }
    ensures footprint { IfOk result (λ p. p.footprint ≡ footprint_of_steps parents.now entry.now.steps) }
{
    let deps = earlier.deps(alloc, entry)?;
    let locks = earlier.locks(alloc, entry, &deps)?;
    let footprint = footprint_of_steps(alloc, entry.steps.as_slice(), parents)?;
    Ok(Place {
        deps: Items::new(deps),
        locks: Items::new(locks),
        footprint,
    })
}

fn planned_at(entry: Entry, place: Place) -> Planned
    ensures { result ≡ record { id = entry.id; deps = place.deps; locks = place.locks; footprint = place.footprint; steps = entry.steps } }
{
    let Entry { id, steps, .. } = entry;
    let Place {
        deps,
        locks,
        footprint,
    } = place;
    Planned {
        id,
        deps,
        locks,
        footprint,
        steps,
    }
}

// The next entry in its place; what is kept of earlier ones is then with it.
fn next_planned(
    alloc: Global,
    earlier: &mut Earlier,
    parents: &mut FkSet,
    entry: Entry,
) -> Result<Planned, AllocError>
    ensures planned { IfOk result (λ p. (es : List TheEntry) → AreEarlier earlier.old.ids earlier.old.lockable earlier.old.rows es → p ≡ planned parents.old es entry) }
    ensures earlier { OnOk result ((es : List TheEntry) → AreEarlier earlier.old.ids earlier.old.lockable earlier.old.rows es → AreEarlier earlier.new.ids earlier.new.lockable earlier.new.rows (es ++ entry ∷ [])) }
    ensures parents { OnOk result (parents.new ≡ parents.old ++ foreign_keys_in entry.steps) }
{
    let place = place_of(alloc, earlier, parents, &entry)?;
    earlier.add(&entry)?;
    put_foreign_keys(parents, entry.steps.as_slice())?;
    Ok(planned_at(entry, place))
}

/// The entries of a list, each in its place, over an opening with these pairs of a table and a parent of one of its
/// foreign keys. The error is that memory ran out.
pub fn placed_entries(
    alloc: Global,
    parents: FkSet,
    entries: Vec<Entry>,
) -> Result<Vec<Planned>, AllocError>
    ensures { IfOk result (λ v. v.items ≡ plan_behind parents [] entries.items) }
{
    let mut parents = parents;
    let mut earlier = Earlier::new(alloc);
    let mut placed = Vec::new(alloc);
    let mut left = entries.into_iter();
    'entries: while let Some(entry) = left.next() {
        placed.push(next_planned(alloc, &mut earlier, &mut parents, entry)?)?;
    }
    Ok(placed)
}

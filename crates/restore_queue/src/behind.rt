//! Which entries wait for each.
ghost use Rattle.std.specs.Prelude.{◌≡◌, ◌<◌, ℕ, length, true, IfOk, OnOk};
ghost use Rattle.restore_plan.specs.Entries.{is_among};
ghost use Rattle.restore_queue.specs.Queues.{AreBehind, is_behind};

use std::alloc::{AllocError, Global};

#[tactic(auto, using(crate::proofs::Listing::among_kept, crate::proofs::Listing::among_added))]
fn push_place(places: &mut Vec<usize>, i: usize) -> Result<(), AllocError>
    ensures kept { (k : ℕ) → is_among k places.old.items ≡ true → is_among k places.new.items ≡ true }
    ensures added { OnOk result (is_among i places.new.items ≡ true) }
{
    places.push(i)?;
    Ok(())
}

// Lists a place behind another.
fn add_behind(behind: &mut Vec<Vec<usize>>, j: usize, i: usize) -> Result<(), AllocError>
    ensures kept { (n k : ℕ) → is_behind behind.old.items n k ≡ true → is_behind behind.new.items n k ≡ true }
    ensures added { OnOk result (is_behind behind.new.items j i ≡ true) }
    ensures len { length behind.new.items ≡ length behind.old.items }
{
    match behind.get_mut(j) {
        Some(places) => push_place(places, i),
        None => Ok(()),
    }
}

// Lists a place behind each of these.
fn add_places(behind: &mut Vec<Vec<usize>>, places: &[usize], i: usize) -> Result<(), AllocError>
    ensures kept { (n k : ℕ) → is_behind behind.old.items n k ≡ true → is_behind behind.new.items n k ≡ true }
    ensures added { OnOk result ((j : ℕ) → is_among j places.now ≡ true → is_behind behind.new.items j i ≡ true) }
    ensures len { length behind.new.items ≡ length behind.old.items }
{
    for j in places {
        add_behind(behind, *j, i)?;
    }
    Ok(())
}

// As many empty lists.
fn empties(alloc: Global, many: usize) -> Result<Vec<Vec<usize>>, AllocError>
    ensures { IfOk result (λ lists. length lists.items ≡ many) }
{
    let mut lists = Vec::new(alloc);
    for _ in 0..many {
        lists.push(Vec::new(alloc))?;
    }
    Ok(lists)
}

/// The places of those that wait for each entry.
pub(crate) fn behind_all(alloc: Global, waits: &[Vec<usize>]) -> Result<Vec<Vec<usize>>, AllocError>
    ensures behind { IfOk result (λ behind. AreBehind waits.now behind.items) }
    ensures len { IfOk result (λ behind. length behind.items ≡ length waits.now) }
{
    let mut behind = empties(alloc, waits.len())?;
    for i in 0..waits.len() {
        add_places(&mut behind, waits[i].as_slice(), i)?;
    }
    Ok(behind)
}

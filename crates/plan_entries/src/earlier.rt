//! What is kept of the entries that stand earlier in a list.
ghost use Rattle.std.specs.Prelude.{◌≡◌, ◌==◌, ◌&&◌, ◌||◌, ◌++◌, ◌∷◌, [], ℕ, List, map, if◌then◌else◌, IfOk, OnOk};
ghost use Rattle.std.specs.Ordering.{nat_cmp};
ghost use Rattle.std.specs.BTreeMap.{get};
ghost use Rattle.std.specs.BTreeSet.{contains};
ghost use Rattle.restore_plan.specs.declared.entry.Entry.{Entry as TheEntry};
ghost use Rattle.restore_plan.specs.Entries.{deps as the_deps, has_rows_of, is_table_data, locks};
ghost use Rattle.plan_entries.specs.Earlier.{AreEarlier, among_by, first_of, locks_by, replaced_by, waits_by};

use restore_plan::{Entry, Kind};
use std::alloc::{AllocError, Global};
use std::collections::{BTreeMap, BTreeSet};

/// What is kept of earlier entries.
#[derive(Drop)]
pub(crate) struct Earlier {
    /// Their dump ids.
    ids: BTreeSet<u32>,
    /// Those of them that can be locked.
    lockable: BTreeSet<u32>,
    /// Under what an entry of rows lists first: the first such entry.
    rows: BTreeMap<u32, u32>,
}

fn add_if(set: &mut BTreeSet<u32>, id: u32, is: bool) -> Result<(), AllocError>
    ensures { OnOk result ((q : ℕ) → contains nat_cmp set.new q ≡ ((id == q && is) || contains nat_cmp set.old q)) }
{
    if is {
        set.insert(id)?;
    }
    Ok(())
}

// The entry of rows for what it lists first, unless another stands there.
fn add_first(rows: &mut BTreeMap<u32, u32>, of: u32, id: u32) -> Result<(), AllocError>
    ensures { OnOk result ((q : ℕ) → get nat_cmp rows.new q ≡ first_of (get nat_cmp rows.old q) (if of == q then Some id else None)) }
{
    if rows.get(&of).is_none() {
        rows.insert(of, id)?;
    }
    Ok(())
}

fn is_table_data(kind: Kind) -> bool
    ensures { result ≡ is_table_data kind }
{
    matches!(kind, Kind::TableData)
}

// The entry for the rows that it holds, unless another holds them.
fn add_rows(rows: &mut BTreeMap<u32, u32>, entry: &Entry) -> Result<(), AllocError>
    ensures { OnOk result ((q : ℕ) → get nat_cmp rows.new q ≡ first_of (get nat_cmp rows.old q) (if has_rows_of q entry.now then Some entry.now.id else None)) }
{
    if !is_table_data(entry.kind) {
        return Ok(());
    }
    match entry.listed.as_slice() {
        [] => Ok(()),
        [first, ..] => add_first(rows, *first, entry.id),
    }
}

// What an entry lists, where in the section post-data table data stands for its table.
fn waits_for(
    alloc: Global,
    rows: &BTreeMap<u32, u32>,
    entry: &Entry,
) -> Result<Vec<u32>, AllocError>
    ensures { IfOk result (λ v. v.items ≡ waits_by rows.now entry.now.post_data entry.now.listed) }
{
    let listed = entry.listed.as_slice();
    if entry.post_data {
        listed.iter().map(|id| replaced(rows, *id)).collect(alloc)
    } else {
        listed.to_vec(alloc)
    }
}

fn replaced(rows: &BTreeMap<u32, u32>, id: u32) -> u32
    ensures { result ≡ replaced_by rows.now id }
{
    rows.get(&id).copied().unwrap_or(id)
}

fn has(ids: &BTreeSet<u32>, id: u32) -> bool
    ensures { result ≡ contains nat_cmp ids.now id }
{
    ids.contains(&id)
}

fn among(alloc: Global, ids: &BTreeSet<u32>, waits: &[u32]) -> Result<Vec<u32>, AllocError>
    ensures { IfOk result (λ v. v.items ≡ among_by ids.now waits.now) }
{
    waits
        .iter()
        .copied()
        .filter(|id| has(ids, *id))
        .collect(alloc)
}

impl Earlier {
    /// There are none.
    pub(crate) fn new(alloc: Global) -> Earlier
        ensures { AreEarlier result.ids result.lockable result.rows [] }
    {
        Earlier {
            ids: BTreeSet::new(alloc),
            lockable: BTreeSet::new(alloc),
            rows: BTreeMap::new(alloc),
        }
    }

    /// One more entry behind them.
    pub(crate) fn add(&mut self, entry: &Entry) -> Result<(), AllocError>
        ensures { OnOk result ((earlier : List TheEntry) → AreEarlier self.old.ids self.old.lockable self.old.rows earlier → AreEarlier self.new.ids self.new.lockable self.new.rows (earlier ++ entry.now ∷ [])) }
    {
        add_if(&mut self.ids, entry.id, true)?;
        add_if(&mut self.lockable, entry.id, entry.kind.is_locked())?;
        add_rows(&mut self.rows, entry)?;
        Ok(())
    }

    /// What an entry depends on.
    pub(crate) fn deps(&self, alloc: Global, entry: &Entry) -> Result<Vec<u32>, AllocError>
        ensures { IfOk result (λ v. (earlier : List TheEntry) → AreEarlier self.now.ids self.now.lockable self.now.rows earlier → v.items ≡ the_deps earlier entry.now) }
    {
        let waits = waits_for(alloc, &self.rows, entry)?;
        let deps = among(alloc, &self.ids, &waits)?;
        Ok(deps)
    }

    /// What an entry with these dependencies locks.
    pub(crate) fn locks(
        &self,
        alloc: Global,
        entry: &Entry,
        deps: &[u32],
    ) -> Result<Vec<u32>, AllocError>
        ensures { IfOk result (λ v. (earlier : List TheEntry) → AreEarlier self.now.ids self.now.lockable self.now.rows earlier → deps.now ≡ the_deps earlier entry.now → v.items ≡ locks earlier entry.now) }
    {
        if entry.post_data && entry.kind.takes_locks() {
            among(alloc, &self.lockable, deps)
        } else {
            Ok(Vec::new(alloc))
        }
    }
}

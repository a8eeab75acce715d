//! Sets of dump ids.
ghost use Rattle.std.specs.Prelude.{◌≡◌, ◌∷◌, [], ℕ, List, not, IfOk, OnOk};
ghost use Rattle.toc_table.specs.Ids.{is_among, AreIds};
ghost use Rattle.toc_table.specs.Tables.{ids_with_rows};

use std::alloc::{AllocError, Global};
use std::collections::BTreeSet;
use toc_entry::Entry;

/// Adds an id, and answers whether it is there for the first time.
pub fn add_id(ids: &mut BTreeSet<u32>, id: u32) -> Result<bool, AllocError>
    ensures first { IfOk result (λ first. (ns : List ℕ) → AreIds ids.old ns → first ≡ not (is_among ns id)) }
    ensures added { OnOk result ((ns : List ℕ) → AreIds ids.old ns → AreIds ids.new (id ∷ ns)) }
{
    Ok(ids.insert(id)?)
}

/// Whether an id is there.
pub fn has_id(ids: &BTreeSet<u32>, id: u32) -> bool
    ensures { (ns : List ℕ) → AreIds ids.now ns → result ≡ is_among ns id }
{
    ids.contains(&id)
}

/// The dump ids of the entries with rows.
pub fn ids_with_rows(alloc: Global, entries: &[Entry]) -> Result<BTreeSet<u32>, AllocError>
    ensures { IfOk result (λ ids. AreIds ids (ids_with_rows [] entries.now)) }
{
    let mut ids = BTreeSet::new(alloc);
    for entry in entries {
        if entry.has_rows {
            add_id(&mut ids, entry.dump_id)?;
        }
    }
    Ok(ids)
}

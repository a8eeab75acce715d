//! Whether one stands twice.
ghost use Rattle.std.specs.Prelude.{◌≡◌, ◌||◌, not, IfOk, OnOk};
ghost use Rattle.std.specs.BTreeSet.{contains};
ghost use Rattle.std.specs.Ordering.{eq_by_cmp};
ghost use Rattle.cat_model.specs.Tables.{distinct};

use copy_text::{Name, Text};
use std::alloc::{AllocError, Global};
use std::collections::BTreeSet;

// Adds a key, and answers whether it is there for the first time.
fn add_key<K: Ord + Drop>(keys: &mut BTreeSet<K>, key: K) -> Result<bool, AllocError>
    ensures first { IfOk result (λ first. first ≡ not (contains K.cmp keys.old key)) }
    ensures added { OnOk result ((k : K) → contains K.cmp keys.new k ≡ (contains K.cmp keys.old k || eq_by_cmp K.cmp k key)) }
{
    Ok(keys.insert(key)?)
}

/// Whether no name stands twice. The only error is want of memory.
#[tactic(auto, using(crate::proofs::Distincts::distinct_is))]
pub fn are_distinct(alloc: Global, names: &[Name]) -> Result<bool, AllocError>
    ensures { IfOk result (λ are. are ≡ distinct names.now) }
{
    let mut seen = BTreeSet::new(alloc);
    for name in names {
        let first = add_key(&mut seen, name)?;
        if !first {
            return Ok(false);
        }
    }
    Ok(true)
}

/// Whether no text stands twice. The only error is want of memory.
#[tactic(auto, using(crate::proofs::Distincts::distinct_is))]
pub fn are_distinct_texts(alloc: Global, texts: &[Text]) -> Result<bool, AllocError>
    ensures { IfOk result (λ are. are ≡ distinct texts.now) }
{
    let mut seen = BTreeSet::new(alloc);
    for text in texts {
        let first = add_key(&mut seen, text)?;
        if !first {
            return Ok(false);
        }
    }
    Ok(true)
}

//! Unique keys in the order in which they are tried.
ghost use Rattle.std.specs.Prelude.{◌≡◌, ◌≤◌, ◌++◌, ◌∷◌, not, take, drop, length, IfOk, OnOk};
ghost use Rattle.std.specs.Ordering.{is_gt};
ghost use Rattle.cat_model.specs.Values.{bytes_cmp};
ghost use Rattle.cat_model.specs.CopyEffect.{by_name, placed};

use crate::keys::UniqueKey;
use copy_text::Name;
use std::alloc::{AllocError, Global};

/// The keys by their names; of two of one name the earlier one comes first. They are put into place one by one, so a
/// list should be short, as that of a table's keys is. The error says that there was no memory.
pub fn by_name<'k>(
    alloc: Global,
    keys: Vec<UniqueKey<'k>>,
) -> Result<Vec<UniqueKey<'k>>, AllocError>
    ensures { IfOk result (λ sorted. sorted.items ≡ by_name keys.entry.items) }
{
    let mut left = keys;
    let mut sorted = Vec::with_capacity(alloc, left.len())?;
    while let Some(key) = left.pop() {
        place(&mut sorted, key)?;
    }
    Ok(sorted)
}

fn place<'k>(sorted: &mut Vec<UniqueKey<'k>>, key: UniqueKey<'k>) -> Result<(), AllocError>
    ensures { OnOk result (sorted.new.items ≡ placed key.entry sorted.old.items) }
{
    let at = place_in(sorted, &key);
    sorted.insert(at, key)?;
    Ok(())
}

// The place before the first key whose name isn't less.
fn place_in(sorted: &[UniqueKey], key: &UniqueKey) -> usize
    ensures bound { result ≤ length sorted.now }
    ensures place { placed key.now sorted.now ≡ take result sorted.now ++ key.now ∷ drop result sorted.now }
{
    for i in 0..sorted.len() {
        let other = &sorted[i];
        if stands_before(key.name(), other.name()) {
            return i;
        }
    }
    sorted.len()
}

fn stands_before(name: &Name, other: &Name) -> bool
    ensures { result ≡ not (is_gt (bytes_cmp name.now other.now)) }
{
    !name.cmp(other).is_gt()
}

//! New oids for what has none.
ghost use Rattle.std.specs.Prelude.{◌≡◌, true, false, map, None, IfOk, OnOk};
ghost use Rattle.std.specs.Map.Iter.{deref_pair};
ghost use Rattle.cat_model.specs.declared.key.Key.{Key as TheKey};
ghost use Rattle.cat_model.specs.declared.value.Value.{Value as TheValue};
ghost use Rattle.object_ids.specs.Ids.{KeepIds};
ghost use Rattle.eng_tables.specs.Oids.{IsLeastUnused};
ghost use Rattle.entry_ids.specs.Entries.{AreUnused, HaveIds, slots_of};

use crate::slots::slots_of;
use cat_model::{Key, Value};
use object_ids::{Ids, Slot};
use std::alloc::{AllocError, Global};

// Gives an oid to each of these that has none; whether each has one at the end.
fn number_slots(ids: &mut Ids, slots: &[Slot]) -> Result<bool, AllocError>
    ensures all { IfOk result (λ done. done ≡ true → HaveIds ids.new slots.now) }
    ensures left { IfOk result (λ done. done ≡ false → IsLeastUnused ids.new.used None) }
    ensures kept { OnOk result (KeepIds ids.old ids.new) }
    ensures unused { OnOk result (AreUnused ids.old ids.new) }
{
    for slot in slots {
        if !ids.number(slot)? {
            return Ok(false);
        }
    }
    Ok(true)
}

/// Gives an oid to all that these entries say and that has none, the least ones from 16384 up that aren't in use: objects
/// and checks of domains in the order of the entries, and then labels of enums. Whether each has one at the end, which is
/// not so only where no oid is left. What had an oid keeps it; a new one was none that was in use. The only error is want of
/// memory.
pub fn number_all(
    alloc: Global,
    ids: &mut Ids,
    entries: &[(&Key, &Value)],
) -> Result<bool, AllocError>
    ensures all { IfOk result (λ done. done ≡ true → HaveIds ids.new (slots_of (map (deref_pair {K = TheKey} {X = TheValue}) entries.now))) }
    ensures left { IfOk result (λ done. done ≡ false → IsLeastUnused ids.new.used None) }
    ensures kept { OnOk result (KeepIds ids.old ids.new) }
    ensures unused { OnOk result (AreUnused ids.old ids.new) }
{
    let slots = slots_of(alloc, entries)?;
    number_slots(ids, &slots)
}

//! Oids of rows.
ghost use Rattle.std.specs.Prelude.{◌≡◌, Some, None, OnOk};
ghost use Rattle.object_ids.specs.Ids.{with_id};
ghost use Rattle.opening_ids.specs.Opening.{given};

use crate::let_go::let_go_slot;
use object_ids::{Ids, Slot};
use std::alloc::AllocError;

// Gives it an oid, handed over.
fn put(ids: &mut Ids, oid: u32, slot: Slot) -> Result<(), AllocError>
    ensures { OnOk result (ids.new ≡ with_id ids.old slot oid) }
{
    let done = ids.put(&slot, oid);
    let_go_slot(slot);
    done
}

/// Notes that a row's oid is in use, and gives it to what the row is of.
pub(crate) fn give(ids: &mut Ids, oid: u32, slot: Option<Slot>) -> Result<(), AllocError>
    ensures { OnOk result (ids.new ≡ given ids.old oid slot) }
{
    match slot {
        None => ids.avoid(oid),
        Some(slot) => give_slot(ids, oid, slot),
    }
}

/// The same of a row that is of this.
pub(crate) fn give_slot(ids: &mut Ids, oid: u32, slot: Slot) -> Result<(), AllocError>
    ensures { OnOk result (ids.new ≡ given ids.old oid (Some slot)) }
{
    match ids.avoid(oid) {
        Ok(()) => put(ids, oid, slot),
        Err(error) => {
            let_go_slot(slot);
            Err(error)
        }
    }
}

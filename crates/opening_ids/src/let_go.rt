//! Values that are let go by a call, since the drop of a large enum is written out where it stands.
use object_ids::Slot;

pub(crate) fn let_go_slot(slot: Slot) {
    drop(slot);
}

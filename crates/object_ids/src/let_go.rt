//! Values that are let go by a call, since the drop of a large enum is written out where it stands.
use crate::slots::Slot;
use std::alloc::AllocFailed;

pub(crate) fn let_go_failed(failed: AllocFailed<(Slot, u32)>) {
    drop(failed);
}

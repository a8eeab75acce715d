//! Values that are let go by a call, since the drop of a large enum is written out where it stands.
use cat_model::Key;
use std::alloc::AllocFailed;

pub(crate) fn let_go_key(key: Key) {
    drop(key);
}

pub(crate) fn let_go_row<R: Drop>(row: R) {
    drop(row);
}

pub(crate) fn let_go_entry<R: Drop>(entry: Option<(Key, R)>) {
    drop(entry);
}

pub(crate) fn let_go_failed<R: Drop>(failed: AllocFailed<(u32, (Key, R))>) {
    drop(failed);
}

pub(crate) fn let_go_oid(_oid: Option<u32>) {}

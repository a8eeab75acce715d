//! Values that are let go by a call, since the drop of a large enum is written out where it stands.
use cat_model::Key;

pub(crate) fn let_go_key(key: Key) {
    drop(key);
}

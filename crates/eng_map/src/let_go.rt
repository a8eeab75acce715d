//! Values that are let go by a call, since the drop of a large enum is written out where it stands, at the end of an empty
//! body too, and each crate that drops one has to prove the drop of all that it may hold.
use crate::entries::Entries;
use crate::named_map::{Change, NamedMap};
use cat_model::{Key, Value};

pub(crate) fn let_go(value: Option<Value>) {
    drop(value);
}

/// Lets a key go.
pub fn let_go_key(key: Key) {
    drop(key);
}

/// Lets entries go.
pub fn let_go_entries(entries: Entries) {
    drop(entries);
}

/// Lets changes go.
pub fn let_go_changes(changes: Vec<Change>) {
    drop(changes);
}

/// Lets a map go.
pub fn let_go_map(map: NamedMap) {
    drop(map);
}

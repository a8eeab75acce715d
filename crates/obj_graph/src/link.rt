//! What depends on what, by the ids of objects.
use graph_parts::{Obj, ObjId};

/// That one object depends on another, whether a dump chooses them or not.
#[derive(Drop)]
pub struct Link {
    /// The object that depends.
    pub from: ObjId,
    /// The one that it depends on.
    pub to: ObjId,
    /// The default or the rule that the link belongs to, where that can be made later than `from`.
    pub moves_to: Option<Obj>,
    /// Whether `from` depends on the other also without that default or rule. Where `moves_to` is `None` it is false.
    pub stays: bool,
}

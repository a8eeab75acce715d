//! The ids of objects.
ghost use Rattle.std.specs.Prelude.{◌≡◌};
ghost use Rattle.obj_graph.specs.Ids.{schema_id, type_id, relation_id, default_id, constraint_id, rule_id, data_id, pre_data, post_data};

use graph_parts::ObjId;

/// The boundary before the data.
pub fn pre_data() -> ObjId
    ensures { result ≡ pre_data }
{
    ObjId { class: 1, oid: 0 }
}

/// The boundary behind the data.
pub fn post_data() -> ObjId
    ensures { result ≡ post_data }
{
    ObjId { class: 2, oid: 0 }
}

/// The rows of a table, or the value of a sequence.
pub fn data_id(oid: u32) -> ObjId
    ensures { result ≡ data_id oid }
{
    ObjId { class: 0, oid }
}

/// A schema.
pub fn schema_id(oid: u32) -> ObjId
    ensures { result ≡ schema_id oid }
{
    ObjId { class: 2615, oid }
}

/// An enum or a domain.
pub fn type_id(oid: u32) -> ObjId
    ensures { result ≡ type_id oid }
{
    ObjId { class: 1247, oid }
}

/// A table, view or sequence, or an index of no constraint.
pub fn relation_id(oid: u32) -> ObjId
    ensures { result ≡ relation_id oid }
{
    ObjId { class: 1259, oid }
}

/// A default that stands alone.
pub fn default_id(oid: u32) -> ObjId
    ensures { result ≡ default_id oid }
{
    ObjId { class: 2604, oid }
}

/// A primary key, a unique constraint or a foreign key.
pub fn constraint_id(oid: u32) -> ObjId
    ensures { result ≡ constraint_id oid }
{
    ObjId { class: 2606, oid }
}

/// The rule of a dummy view.
pub fn rule_id(oid: u32) -> ObjId
    ensures { result ≡ rule_id oid }
{
    ObjId { class: 2618, oid }
}

//! The keys of tables.
use cat_model::Items;
use copy_text::Name;
use graph_parts::ObjId;

/// A key of a table, to which foreign keys may refer.
#[derive(Drop)]
pub struct KeyOf {
    /// The table.
    pub table: u32,
    /// Its columns.
    pub columns: Items<Name>,
    /// The constraint or the index that it is.
    pub id: ObjId,
}

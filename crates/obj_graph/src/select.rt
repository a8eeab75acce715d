//! What a dump chooses.
ghost use Rattle.std.specs.Prelude.{◌≡◌};
ghost use Rattle.obj_graph.specs.declared.select.ObjectsError.TheVariants as errors;

use cat_model::{Items, Sections};
use patterns::Pattern;
use std::alloc::AllocError;

/// Which objects a dump chooses.
#[derive(Drop)]
pub struct Select {
    /// The schemas that are taken; none stands for all.
    pub schemas: Items<Pattern>,
    /// The schemas that are not.
    pub not_schemas: Items<Pattern>,
    /// The tables, views and sequences that are taken; none stands for all.
    pub tables: Items<Pattern>,
    /// Those that are not.
    pub not_tables: Items<Pattern>,
    /// The tables whose rows are not.
    pub not_table_data: Items<Pattern>,
    /// Neither rows nor the values of sequences.
    pub schema_only: bool,
    /// These alone.
    pub data_only: bool,
    /// Each pattern of what is taken has to hit.
    pub strict: bool,
    /// Owners are set.
    pub owners: bool,
    /// Grants are taken.
    pub grants: bool,
    /// Comments are taken.
    pub comments: bool,
    /// The sections that are taken.
    pub sections: Sections,
}

/// Why nothing is chosen.
#[derive(Debug, Clone, Copy)]
pub enum SelectFault {
    /// The pattern of this place, counted from 0, hits no schema.
    NoSchemas(usize),
    /// The pattern of this place, counted from 0, hits no table, view or sequence.
    NoTables(usize),
}

/// Why there is no graph.
#[derive(Clone, Copy)]
pub enum ObjectsError {
    /// A pattern is refused.
    Fault(SelectFault),
    /// There was no memory, or there are more objects and edges than have places.
    Memory,
}

impl From<AllocError> for ObjectsError {
    ghost from_gives = { λ _ e. e ≡ errors.Memory };

    fn from(_e: AllocError) -> ObjectsError {
        ObjectsError::Memory
    }
}

//! The tables that a case checks.

/// The tables that are checked together.
#[derive(Clone, Copy)]
pub enum Checked {
    /// Roles, memberships, databases and schemas.
    Cluster,
    /// Types.
    Types,
    /// Columns and their defaults.
    Columns,
    /// Constraints.
    Constraints,
    /// Indexes that stand for no constraint.
    Indexes,
    /// Sequences.
    Sequences,
    /// Views.
    Views,
    /// All fifteen tables.
    All,
}

/// The tables of a name.
pub fn checked_of(name: &str) -> Option<Checked> {
    let checked = match name {
        "cluster" => Checked::Cluster,
        "types" => Checked::Types,
        "columns" => Checked::Columns,
        "constraints" => Checked::Constraints,
        "indexes" => Checked::Indexes,
        "sequences" => Checked::Sequences,
        "views" => Checked::Views,
        "all" => Checked::All,
        _ => return None,
    };
    Some(checked)
}

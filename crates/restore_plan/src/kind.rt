//! Kinds of entries, as far as the order of a restore looks at them.
ghost use Rattle.std.specs.Prelude.{◌≡◌};
ghost use Rattle.restore_plan.specs.Entries.{is_locked as the_locked, takes_locks as the_takers};

/// What kind of entry it is, as far as the order of a restore looks at it.
/// <https://www.postgresql.org/docs/16/app-pgrestore.html>
#[derive(Clone, Copy)]
pub enum Kind {
    /// TABLE.
    Table,
    /// TABLE DATA.
    TableData,
    /// INDEX.
    Index,
    /// Any other.
    Other,
}

impl Kind {
    /// Whether entries lock it: TABLE and TABLE DATA.
    pub fn is_locked(self) -> bool
        ensures { result ≡ the_locked self }
    {
        matches!(self, Kind::Table | Kind::TableData)
    }

    /// Whether an entry of this kind takes locks, where it stands in the section post-data: any but INDEX.
    pub fn takes_locks(self) -> bool
        ensures { result ≡ the_takers self }
    {
        !matches!(self, Kind::Index)
    }
}

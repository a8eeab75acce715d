//! Words that several of the tools share.
use copy_text::Text;

/// Something that is left out, by name.
#[derive(Debug, Drop)]
pub enum What {
    /// An archive or a member compressed with gzip.
    Gzip,
    /// An archive or a member compressed with lz4.
    Lz4,
    /// An archive or a member compressed with zstd.
    Zstd,
    /// A tar archive.
    Tar,
    /// Large objects.
    LargeObjects,
    /// A relation of this `pg_class.relkind`.
    RelKind(u8),
    /// A relation that isn't permanent.
    Persistence,
    /// A type of this `pg_type.typtype`.
    TypeKind(u8),
    /// A constraint of this `pg_constraint.contype`.
    ConstraintKind(u8),
    /// An encoding other than UTF8.
    Encoding,
    /// An identity column.
    Identity,
    /// A table that inherits from another.
    Inheritance,
    /// A tablespace.
    Tablespace,
    /// A right that another role than the owner granted.
    GrantByOther,
    /// A comment on an object of another kind.
    CommentKind,
    /// A default on a column of a view.
    DefaultOnView,
    /// More columns than a table can have.
    Columns,
    /// An entry of this kind.
    EntryKind(Text),
    /// What this program doesn't take yet.
    Unbuilt,
}

/// Which sections of an archive are chosen.
#[derive(Clone, Copy)]
pub struct Sections {
    /// What comes before the data.
    pub pre: bool,
    /// The data.
    pub rows: bool,
    /// What comes after the data.
    pub post: bool,
}

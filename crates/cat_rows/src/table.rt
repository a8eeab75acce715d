//! The system tables of an export folder.
ghost use Rattle.std.specs.Prelude.{◌≡◌};
ghost use Rattle.cat_rows.specs.Kinds.{table_name, table_file};

/// A system table, of which an export folder has one file each. See
/// <https://www.postgresql.org/docs/16/catalogs.html>.
#[derive(Clone, Copy, Debug, PartialEq, Eq)]
pub enum SysTable {
    /// The roles.
    PgAuthid,
    /// Which role is a member of which.
    PgAuthMembers,
    /// The databases.
    PgDatabase,
    /// The schemas.
    PgNamespace,
    /// The enums and domains.
    PgType,
    /// The labels of enums.
    PgEnum,
    /// The tables, views, sequences and indexes.
    PgClass,
    /// The columns of tables and views.
    PgAttribute,
    /// The defaults of columns.
    PgAttrdef,
    /// The constraints of tables and domains.
    PgConstraint,
    /// The indexes that stand for no constraint.
    PgIndex,
    /// The sequences' parameters and values.
    PgSequence,
    /// The queries of views.
    PgRewrite,
    /// The comments.
    PgDescription,
    /// Further dependencies.
    PgDepend,
}

impl SysTable {
    /// The tables in the order of their files.
    pub const ALL: [SysTable; 15] = [
        SysTable::PgAuthid,
        SysTable::PgAuthMembers,
        SysTable::PgDatabase,
        SysTable::PgNamespace,
        SysTable::PgType,
        SysTable::PgEnum,
        SysTable::PgClass,
        SysTable::PgAttribute,
        SysTable::PgAttrdef,
        SysTable::PgConstraint,
        SysTable::PgIndex,
        SysTable::PgSequence,
        SysTable::PgRewrite,
        SysTable::PgDescription,
        SysTable::PgDepend,
    ];

    /// The table's name, as `pg_namespace`.
    pub fn name(self) -> &'static str
        ensures { result.now ≡ table_name self }
    {
        match self {
            SysTable::PgAuthid => "pg_authid",
            SysTable::PgAuthMembers => "pg_auth_members",
            SysTable::PgDatabase => "pg_database",
            SysTable::PgNamespace => "pg_namespace",
            SysTable::PgType => "pg_type",
            SysTable::PgEnum => "pg_enum",
            SysTable::PgClass => "pg_class",
            SysTable::PgAttribute => "pg_attribute",
            SysTable::PgAttrdef => "pg_attrdef",
            SysTable::PgConstraint => "pg_constraint",
            SysTable::PgIndex => "pg_index",
            SysTable::PgSequence => "pg_sequence",
            SysTable::PgRewrite => "pg_rewrite",
            SysTable::PgDescription => "pg_description",
            SysTable::PgDepend => "pg_depend",
        }
    }

    /// The table's file in an export folder, as `pg_namespace.copy`.
    pub fn file_name(self) -> &'static str
        ensures { result.now ≡ table_file self }
    {
        match self {
            SysTable::PgAuthid => "pg_authid.copy",
            SysTable::PgAuthMembers => "pg_auth_members.copy",
            SysTable::PgDatabase => "pg_database.copy",
            SysTable::PgNamespace => "pg_namespace.copy",
            SysTable::PgType => "pg_type.copy",
            SysTable::PgEnum => "pg_enum.copy",
            SysTable::PgClass => "pg_class.copy",
            SysTable::PgAttribute => "pg_attribute.copy",
            SysTable::PgAttrdef => "pg_attrdef.copy",
            SysTable::PgConstraint => "pg_constraint.copy",
            SysTable::PgIndex => "pg_index.copy",
            SysTable::PgSequence => "pg_sequence.copy",
            SysTable::PgRewrite => "pg_rewrite.copy",
            SysTable::PgDescription => "pg_description.copy",
            SysTable::PgDepend => "pg_depend.copy",
        }
    }
}

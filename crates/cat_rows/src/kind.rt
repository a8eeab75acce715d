//! The kinds of columns, and which of them each system table has.
ghost use Rattle.std.specs.Prelude.{◌≡◌};
ghost use Rattle.cat_rows.specs.Kinds.{columns, kind_text};

use crate::table::SysTable;

/// What a column holds. Numbers are plain decimals, without plus, leading zeros and minus zero.
#[derive(Clone, Copy, Debug, PartialEq, Eq)]
pub enum ColKind {
    /// A number from 0 to 4294967295.
    Oid,
    /// A number of 64 bits with a sign.
    Int,
    /// `t` or `f`.
    Bool,
    /// 1 to 63 bytes of UTF-8 without the byte 0.
    NameCol,
    /// Any text.
    TextCol,
    /// Null or any text.
    NullText,
    /// One byte.
    Letter,
    /// Null or a list of rights.
    Acl,
}

impl ColKind {
    /// What a message calls a column of this kind.
    pub(crate) fn text(self) -> &'static str
        ensures { result.now ≡ kind_text self }
    {
        match self {
            ColKind::Oid => "oid",
            ColKind::Int => "integer",
            ColKind::Bool => "bool",
            ColKind::NameCol => "name",
            ColKind::TextCol | ColKind::NullText => "text",
            ColKind::Letter => "letter",
            ColKind::Acl => "list of rights",
        }
    }
}

/// The columns of a system table, in order.
#[derive(Clone, Copy)]
pub struct TableSpec<const N: usize> {
    /// The table.
    pub table: SysTable,
    /// What its columns hold.
    pub columns: [ColKind; N],
}

/// The columns of pg_authid: oid, rolname, rolsuper, rolinherit, rolcreaterole, rolcreatedb, rolcanlogin, rolreplication, rolbypassrls, rolconnlimit, rolpassword, rolvaliduntil.
pub const PG_AUTHID: TableSpec<12> = TableSpec {
    table: SysTable::PgAuthid,
    columns: [
        ColKind::Oid,
        ColKind::NameCol,
        ColKind::Bool,
        ColKind::Bool,
        ColKind::Bool,
        ColKind::Bool,
        ColKind::Bool,
        ColKind::Bool,
        ColKind::Bool,
        ColKind::Int,
        ColKind::NullText,
        ColKind::NullText,
    ],
};

/// The columns of pg_auth_members: oid, roleid, member, grantor, admin_option, inherit_option, set_option.
pub const PG_AUTH_MEMBERS: TableSpec<7> = TableSpec {
    table: SysTable::PgAuthMembers,
    columns: [
        ColKind::Oid,
        ColKind::Oid,
        ColKind::Oid,
        ColKind::Oid,
        ColKind::Bool,
        ColKind::Bool,
        ColKind::Bool,
    ],
};

/// The columns of pg_database: oid, datname, datdba, encoding, datcurrent.
pub const PG_DATABASE: TableSpec<5> = TableSpec {
    table: SysTable::PgDatabase,
    columns: [
        ColKind::Oid,
        ColKind::NameCol,
        ColKind::Oid,
        ColKind::TextCol,
        ColKind::Bool,
    ],
};

/// The columns of pg_namespace: oid, nspname, nspowner, nspacl.
pub const PG_NAMESPACE: TableSpec<4> = TableSpec {
    table: SysTable::PgNamespace,
    columns: [ColKind::Oid, ColKind::NameCol, ColKind::Oid, ColKind::Acl],
};

/// The columns of pg_type: oid, typname, typnamespace, typowner, typtype, typnotnull, typbasetype, basetext, typdefault, typacl.
pub const PG_TYPE: TableSpec<10> = TableSpec {
    table: SysTable::PgType,
    columns: [
        ColKind::Oid,
        ColKind::NameCol,
        ColKind::Oid,
        ColKind::Oid,
        ColKind::Letter,
        ColKind::Bool,
        ColKind::Oid,
        ColKind::TextCol,
        ColKind::NullText,
        ColKind::Acl,
    ],
};

/// The columns of pg_enum: oid, enumtypid, enumpos, enumlabel.
pub const PG_ENUM: TableSpec<4> = TableSpec {
    table: SysTable::PgEnum,
    columns: [ColKind::Oid, ColKind::Oid, ColKind::Int, ColKind::TextCol],
};

/// The columns of pg_class: oid, relname, relnamespace, relkind, relowner, relpersistence, relacl.
pub const PG_CLASS: TableSpec<7> = TableSpec {
    table: SysTable::PgClass,
    columns: [
        ColKind::Oid,
        ColKind::NameCol,
        ColKind::Oid,
        ColKind::Letter,
        ColKind::Oid,
        ColKind::Letter,
        ColKind::Acl,
    ],
};

/// The columns of pg_attribute: attrelid, attnum, attname, atttypid, typtext, attnotnull.
pub const PG_ATTRIBUTE: TableSpec<6> = TableSpec {
    table: SysTable::PgAttribute,
    columns: [
        ColKind::Oid,
        ColKind::Int,
        ColKind::NameCol,
        ColKind::Oid,
        ColKind::TextCol,
        ColKind::Bool,
    ],
};

/// The columns of pg_attrdef: oid, adrelid, adnum, adexpr.
pub const PG_ATTRDEF: TableSpec<4> = TableSpec {
    table: SysTable::PgAttrdef,
    columns: [ColKind::Oid, ColKind::Oid, ColKind::Int, ColKind::TextCol],
};

/// The columns of pg_constraint: oid, conname, contype, conrelid, contypid, conindid, confrelid, condef.
pub const PG_CONSTRAINT: TableSpec<8> = TableSpec {
    table: SysTable::PgConstraint,
    columns: [
        ColKind::Oid,
        ColKind::NameCol,
        ColKind::Letter,
        ColKind::Oid,
        ColKind::Oid,
        ColKind::Oid,
        ColKind::Oid,
        ColKind::TextCol,
    ],
};

/// The columns of pg_index: indexrelid, indrelid, indisunique, indexdef.
pub const PG_INDEX: TableSpec<4> = TableSpec {
    table: SysTable::PgIndex,
    columns: [ColKind::Oid, ColKind::Oid, ColKind::Bool, ColKind::TextCol],
};

/// The columns of pg_sequence: seqrelid, seqtype, seqstart, seqincrement, seqmax, seqmin, seqcache, seqcycle, last_value, is_called, ownrel, owncol.
pub const PG_SEQUENCE: TableSpec<12> = TableSpec {
    table: SysTable::PgSequence,
    columns: [
        ColKind::Oid,
        ColKind::TextCol,
        ColKind::Int,
        ColKind::Int,
        ColKind::Int,
        ColKind::Int,
        ColKind::Int,
        ColKind::Bool,
        ColKind::Int,
        ColKind::Bool,
        ColKind::Oid,
        ColKind::Int,
    ],
};

/// The columns of pg_rewrite: oid, ev_class, viewdef.
pub const PG_REWRITE: TableSpec<3> = TableSpec {
    table: SysTable::PgRewrite,
    columns: [ColKind::Oid, ColKind::Oid, ColKind::TextCol],
};

/// The columns of pg_description: objoid, classoid, objsubid, description.
pub const PG_DESCRIPTION: TableSpec<4> = TableSpec {
    table: SysTable::PgDescription,
    columns: [ColKind::Oid, ColKind::Oid, ColKind::Int, ColKind::TextCol],
};

/// The columns of pg_depend: classid, objid, objsubid, refclassid, refobjid, refobjsubid, deptype.
pub const PG_DEPEND: TableSpec<7> = TableSpec {
    table: SysTable::PgDepend,
    columns: [
        ColKind::Oid,
        ColKind::Oid,
        ColKind::Int,
        ColKind::Oid,
        ColKind::Oid,
        ColKind::Int,
        ColKind::Letter,
    ],
};

/// The constants above are the columns of the definition.
pub fn specs_are_the_columns()
    ensures pg_authid { PG_AUTHID.columns ≡ columns PG_AUTHID.table }
    ensures pg_auth_members { PG_AUTH_MEMBERS.columns ≡ columns PG_AUTH_MEMBERS.table }
    ensures pg_database { PG_DATABASE.columns ≡ columns PG_DATABASE.table }
    ensures pg_namespace { PG_NAMESPACE.columns ≡ columns PG_NAMESPACE.table }
    ensures pg_type { PG_TYPE.columns ≡ columns PG_TYPE.table }
    ensures pg_enum { PG_ENUM.columns ≡ columns PG_ENUM.table }
    ensures pg_class { PG_CLASS.columns ≡ columns PG_CLASS.table }
    ensures pg_attribute { PG_ATTRIBUTE.columns ≡ columns PG_ATTRIBUTE.table }
    ensures pg_attrdef { PG_ATTRDEF.columns ≡ columns PG_ATTRDEF.table }
    ensures pg_constraint { PG_CONSTRAINT.columns ≡ columns PG_CONSTRAINT.table }
    ensures pg_index { PG_INDEX.columns ≡ columns PG_INDEX.table }
    ensures pg_sequence { PG_SEQUENCE.columns ≡ columns PG_SEQUENCE.table }
    ensures pg_rewrite { PG_REWRITE.columns ≡ columns PG_REWRITE.table }
    ensures pg_description { PG_DESCRIPTION.columns ≡ columns PG_DESCRIPTION.table }
    ensures pg_depend { PG_DEPEND.columns ≡ columns PG_DEPEND.table }
{}

//! Rows beyond those of roles, databases and schemas.
ghost use Rattle.std.specs.Prelude.{◌≡◌};
ghost use Rattle.cat_rows.specs.Catalogues.{rows_in};
ghost use Rattle.folder_io.specs.Beyond.{has_one, has_rows_beyond};

use cat_rows::{Catalogue, Rows, SysTable};

/// The tables other than pg_authid, pg_auth_members, pg_database and pg_namespace.
const FURTHER_TABLES: [SysTable; 11] = [
    SysTable::PgType,
    SysTable::PgEnum,
    SysTable::PgClass,
    SysTable::PgAttribute,
    SysTable::PgAttrdef,
    SysTable::PgConstraint,
    SysTable::PgIndex,
    SysTable::PgSequence,
    SysTable::PgRewrite,
    SysTable::PgDescription,
    SysTable::PgDepend,
];

/// Whether a table other than pg_authid, pg_auth_members, pg_database and pg_namespace has a row.
pub fn has_rows_beyond(cat: &Catalogue) -> bool
    ensures { result ≡ has_rows_beyond cat.now }
{
    FURTHER_TABLES.iter().any(|table| has_rows(cat, *table))
}

/// Whether a table has a row.
#[tactic(auto, using(crate::proofs::Rows::mapped_one))]
fn has_rows(cat: &Catalogue, table: SysTable) -> bool
    ensures { result ≡ has_one (rows_in table cat.now) }
{
    match table {
        SysTable::PgAuthid => has_row(&cat.pg_authid),
        SysTable::PgAuthMembers => has_row(&cat.pg_auth_members),
        SysTable::PgDatabase => has_row(&cat.pg_database),
        SysTable::PgNamespace => has_row(&cat.pg_namespace),
        SysTable::PgType => has_row(&cat.pg_type),
        SysTable::PgEnum => has_row(&cat.pg_enum),
        SysTable::PgClass => has_row(&cat.pg_class),
        SysTable::PgAttribute => has_row(&cat.pg_attribute),
        SysTable::PgAttrdef => has_row(&cat.pg_attrdef),
        SysTable::PgConstraint => has_row(&cat.pg_constraint),
        SysTable::PgIndex => has_row(&cat.pg_index),
        SysTable::PgSequence => has_row(&cat.pg_sequence),
        SysTable::PgRewrite => has_row(&cat.pg_rewrite),
        SysTable::PgDescription => has_row(&cat.pg_description),
        SysTable::PgDepend => has_row(&cat.pg_depend),
    }
}

/// Whether there is a row.
fn has_row<R>(rows: &Rows<R>) -> bool
    ensures { result ≡ has_one rows.now }
{
    !rows.as_slice().is_empty()
}

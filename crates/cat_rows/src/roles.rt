//! The rows of the tables of the cluster: roles, memberships, databases.
ghost use Rattle.cat_rows.specs.declared.table.SysTable.TheVariants.{PgAuthid, PgAuthMembers, PgDatabase};
ghost use Rattle.cat_rows.specs.RowCells.{authid_cells, auth_members_cells, database_cells};

use crate::columns::Columns;
use crate::fault::ReadCellsError;
use crate::fields::Fields;
use crate::kind::{PG_AUTH_MEMBERS, PG_AUTHID, PG_DATABASE};
use crate::table_row::TableRow;
use copy_text::{Name, Text};
use std::alloc::AllocError;

/// A role. See <https://www.postgresql.org/docs/16/catalog-pg-authid.html>.
#[derive(Drop)]
pub struct AuthidRow {
    pub oid: u32,
    pub rolname: Name,
    /// SUPERUSER.
    pub rolsuper: bool,
    /// INHERIT.
    pub rolinherit: bool,
    /// CREATEROLE.
    pub rolcreaterole: bool,
    /// CREATEDB.
    pub rolcreatedb: bool,
    /// LOGIN.
    pub rolcanlogin: bool,
    /// REPLICATION.
    pub rolreplication: bool,
    /// BYPASSRLS.
    pub rolbypassrls: bool,
    /// The most connections; -1 is no limit.
    pub rolconnlimit: i64,
    /// The password as it is kept.
    pub rolpassword: Option<Text>,
    /// When the password ends.
    pub rolvaliduntil: Option<Text>,
}

impl TableRow for AuthidRow {
    ghost table = { PgAuthid };

    ghost cells = { authid_cells };

    fn width() -> usize {
        PG_AUTHID.columns.len()
    }

    #[tactic(auto, unfolding(crate::specs::Reading::cells_at))]
    fn read(mut row: Columns) -> Result<AuthidRow, ReadCellsError> {
        let oid = row.oid()?;
        let rolname = row.name()?;
        let rolsuper = row.bool()?;
        let rolinherit = row.bool()?;
        let rolcreaterole = row.bool()?;
        let rolcreatedb = row.bool()?;
        let rolcanlogin = row.bool()?;
        let rolreplication = row.bool()?;
        let rolbypassrls = row.bool()?;
        let rolconnlimit = row.int()?;
        let rolpassword = row.null_text()?;
        let rolvaliduntil = row.null_text()?;
        Ok(AuthidRow {
            oid,
            rolname,
            rolsuper,
            rolinherit,
            rolcreaterole,
            rolcreatedb,
            rolcanlogin,
            rolreplication,
            rolbypassrls,
            rolconnlimit,
            rolpassword,
            rolvaliduntil,
        })
    }

    fn write(&self, fields: &mut Fields) -> Result<(), AllocError> {
        fields.oid(self.oid)?;
        fields.name(&self.rolname)?;
        fields.bool(self.rolsuper)?;
        fields.bool(self.rolinherit)?;
        fields.bool(self.rolcreaterole)?;
        fields.bool(self.rolcreatedb)?;
        fields.bool(self.rolcanlogin)?;
        fields.bool(self.rolreplication)?;
        fields.bool(self.rolbypassrls)?;
        fields.int(&self.rolconnlimit)?;
        fields.null_text(&self.rolpassword)?;
        fields.null_text(&self.rolvaliduntil)
    }

    fn key(&self) -> (i64, i64, i64) {
        (i64::from(self.oid), 0, 0)
    }
}

/// A membership of one role in another. See <https://www.postgresql.org/docs/16/catalog-pg-auth-members.html>.
#[derive(Drop)]
pub struct AuthMembersRow {
    pub oid: u32,
    /// The role that has the member.
    pub roleid: u32,
    /// The member.
    pub member: u32,
    /// The role that granted the membership.
    pub grantor: u32,
    /// Whether the member may grant it.
    pub admin_option: bool,
    /// Whether the member has the role's rights.
    pub inherit_option: bool,
    /// Whether the member may become the role.
    pub set_option: bool,
}

impl TableRow for AuthMembersRow {
    ghost table = { PgAuthMembers };

    ghost cells = { auth_members_cells };

    fn width() -> usize {
        PG_AUTH_MEMBERS.columns.len()
    }

    #[tactic(auto, unfolding(crate::specs::Reading::cells_at))]
    fn read(mut row: Columns) -> Result<AuthMembersRow, ReadCellsError> {
        let oid = row.oid()?;
        let roleid = row.oid()?;
        let member = row.oid()?;
        let grantor = row.oid()?;
        let admin_option = row.bool()?;
        let inherit_option = row.bool()?;
        let set_option = row.bool()?;
        Ok(AuthMembersRow {
            oid,
            roleid,
            member,
            grantor,
            admin_option,
            inherit_option,
            set_option,
        })
    }

    fn write(&self, fields: &mut Fields) -> Result<(), AllocError> {
        fields.oid(self.oid)?;
        fields.oid(self.roleid)?;
        fields.oid(self.member)?;
        fields.oid(self.grantor)?;
        fields.bool(self.admin_option)?;
        fields.bool(self.inherit_option)?;
        fields.bool(self.set_option)
    }

    fn key(&self) -> (i64, i64, i64) {
        (i64::from(self.oid), 0, 0)
    }
}

/// A database of the cluster. See <https://www.postgresql.org/docs/16/catalog-pg-database.html>.
#[derive(Drop)]
pub struct DatabaseRow {
    pub oid: u32,
    pub datname: Name,
    /// The role that owns it.
    pub datdba: u32,
    pub encoding: Text,
    /// Whether it is the one of the folder.
    pub datcurrent: bool,
}

impl TableRow for DatabaseRow {
    ghost table = { PgDatabase };

    ghost cells = { database_cells };

    fn width() -> usize {
        PG_DATABASE.columns.len()
    }

    #[tactic(auto, unfolding(crate::specs::Reading::cells_at))]
    fn read(mut row: Columns) -> Result<DatabaseRow, ReadCellsError> {
        let oid = row.oid()?;
        let datname = row.name()?;
        let datdba = row.oid()?;
        let encoding = row.text()?;
        let datcurrent = row.bool()?;
        Ok(DatabaseRow {
            oid,
            datname,
            datdba,
            encoding,
            datcurrent,
        })
    }

    fn write(&self, fields: &mut Fields) -> Result<(), AllocError> {
        fields.oid(self.oid)?;
        fields.name(&self.datname)?;
        fields.oid(self.datdba)?;
        fields.text(&self.encoding)?;
        fields.bool(self.datcurrent)
    }

    fn key(&self) -> (i64, i64, i64) {
        (i64::from(self.oid), 0, 0)
    }
}

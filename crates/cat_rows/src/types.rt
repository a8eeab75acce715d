//! The rows of the tables of types.
ghost use Rattle.cat_rows.specs.declared.table.SysTable.TheVariants.{PgType, PgEnum};
ghost use Rattle.cat_rows.specs.RowCells.{type_cells, enum_cells};

use crate::columns::Columns;
use crate::fault::ReadCellsError;
use crate::fields::Fields;
use crate::kind::{PG_ENUM, PG_TYPE};
use crate::letter::Letter;
use crate::table_row::TableRow;
use acl_text::Acl;
use copy_text::{Name, Text};
use std::alloc::AllocError;

/// An enum or a domain. See <https://www.postgresql.org/docs/16/catalog-pg-type.html>.
#[derive(Drop)]
pub struct TypeRow {
    pub oid: u32,
    pub typname: Name,
    /// Its schema.
    pub typnamespace: u32,
    /// The role that owns it.
    pub typowner: u32,
    /// `e` for an enum, `d` for a domain.
    pub typtype: Letter,
    /// Whether a domain refuses null.
    pub typnotnull: bool,
    /// The user type that a domain is over; 0 is none.
    pub typbasetype: u32,
    /// The type that a domain is over, as text.
    pub basetext: Text,
    /// A domain's default.
    pub typdefault: Option<Text>,
    /// Its rights; null stands for the default ones.
    pub typacl: Option<Acl>,
}

impl TableRow for TypeRow {
    ghost table = { PgType };

    ghost cells = { type_cells };

    fn width() -> usize {
        PG_TYPE.columns.len()
    }

    #[tactic(auto, unfolding(crate::specs::Reading::cells_at))]
    fn read(mut row: Columns) -> Result<TypeRow, ReadCellsError> {
        let oid = row.oid()?;
        let typname = row.name()?;
        let typnamespace = row.oid()?;
        let typowner = row.oid()?;
        let typtype = row.letter()?;
        let typnotnull = row.bool()?;
        let typbasetype = row.oid()?;
        let basetext = row.text()?;
        let typdefault = row.null_text()?;
        let typacl = row.acl()?;
        Ok(TypeRow {
            oid,
            typname,
            typnamespace,
            typowner,
            typtype,
            typnotnull,
            typbasetype,
            basetext,
            typdefault,
            typacl,
        })
    }

    fn write(&self, fields: &mut Fields) -> Result<(), AllocError> {
        fields.oid(self.oid)?;
        fields.name(&self.typname)?;
        fields.oid(self.typnamespace)?;
        fields.oid(self.typowner)?;
        fields.letter(self.typtype)?;
        fields.bool(self.typnotnull)?;
        fields.oid(self.typbasetype)?;
        fields.text(&self.basetext)?;
        fields.null_text(&self.typdefault)?;
        fields.acl(&self.typacl)
    }

    fn key(&self) -> (i64, i64, i64) {
        (i64::from(self.oid), 0, 0)
    }
}

/// A label of an enum. See <https://www.postgresql.org/docs/16/catalog-pg-enum.html>.
#[derive(Drop)]
pub struct EnumRow {
    pub oid: u32,
    /// The enum.
    pub enumtypid: u32,
    /// Its place among the labels, from 1.
    pub enumpos: i64,
    pub enumlabel: Text,
}

impl TableRow for EnumRow {
    ghost table = { PgEnum };

    ghost cells = { enum_cells };

    fn width() -> usize {
        PG_ENUM.columns.len()
    }

    #[tactic(auto, unfolding(crate::specs::Reading::cells_at))]
    fn read(mut row: Columns) -> Result<EnumRow, ReadCellsError> {
        let oid = row.oid()?;
        let enumtypid = row.oid()?;
        let enumpos = row.int()?;
        let enumlabel = row.text()?;
        Ok(EnumRow {
            oid,
            enumtypid,
            enumpos,
            enumlabel,
        })
    }

    fn write(&self, fields: &mut Fields) -> Result<(), AllocError> {
        fields.oid(self.oid)?;
        fields.oid(self.enumtypid)?;
        fields.int(&self.enumpos)?;
        fields.text(&self.enumlabel)
    }

    fn key(&self) -> (i64, i64, i64) {
        (i64::from(self.enumtypid), self.enumpos, 0)
    }
}

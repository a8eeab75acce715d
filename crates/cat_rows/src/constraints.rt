//! The rows of pg_constraint.
ghost use Rattle.cat_rows.specs.declared.table.SysTable.TheVariants.{PgConstraint};
ghost use Rattle.cat_rows.specs.RowCells.{constraint_cells};

use crate::columns::Columns;
use crate::fault::ReadCellsError;
use crate::fields::Fields;
use crate::kind::PG_CONSTRAINT;
use crate::letter::Letter;
use crate::table_row::TableRow;
use copy_text::{Name, Text};
use std::alloc::AllocError;

/// A constraint of a table or a domain. See <https://www.postgresql.org/docs/16/catalog-pg-constraint.html>.
#[derive(Drop)]
pub struct ConstraintRow {
    pub oid: u32,
    pub conname: Name,
    /// `p` primary key, `u` unique, `f` foreign key, `c` check.
    pub contype: Letter,
    /// The table; 0 is none.
    pub conrelid: u32,
    /// The domain; 0 is none.
    pub contypid: u32,
    /// The index of a key; 0 is none.
    pub conindid: u32,
    /// The table that a foreign key names; 0 is none.
    pub confrelid: u32,
    /// What follows the name.
    pub condef: Text,
}

impl TableRow for ConstraintRow {
    ghost table = { PgConstraint };

    ghost cells = { constraint_cells };

    fn width() -> usize {
        PG_CONSTRAINT.columns.len()
    }

    #[tactic(auto, unfolding(crate::specs::Reading::cells_at))]
    fn read(mut row: Columns) -> Result<ConstraintRow, ReadCellsError> {
        let oid = row.oid()?;
        let conname = row.name()?;
        let contype = row.letter()?;
        let conrelid = row.oid()?;
        let contypid = row.oid()?;
        let conindid = row.oid()?;
        let confrelid = row.oid()?;
        let condef = row.text()?;
        Ok(ConstraintRow {
            oid,
            conname,
            contype,
            conrelid,
            contypid,
            conindid,
            confrelid,
            condef,
        })
    }

    fn write(&self, fields: &mut Fields) -> Result<(), AllocError> {
        fields.oid(self.oid)?;
        fields.name(&self.conname)?;
        fields.letter(self.contype)?;
        fields.oid(self.conrelid)?;
        fields.oid(self.contypid)?;
        fields.oid(self.conindid)?;
        fields.oid(self.confrelid)?;
        fields.text(&self.condef)
    }

    fn key(&self) -> (i64, i64, i64) {
        (i64::from(self.oid), 0, 0)
    }
}

//! The rows of the tables about other rows: comments and dependencies.
ghost use Rattle.cat_rows.specs.declared.table.SysTable.TheVariants.{PgDescription, PgDepend};
ghost use Rattle.cat_rows.specs.RowCells.{description_cells, depend_cells};

use crate::columns::Columns;
use crate::fault::ReadCellsError;
use crate::fields::Fields;
use crate::kind::{PG_DEPEND, PG_DESCRIPTION};
use crate::letter::Letter;
use crate::table_row::TableRow;
use copy_text::Text;
use std::alloc::AllocError;

/// A comment. See <https://www.postgresql.org/docs/16/catalog-pg-description.html>.
#[derive(Drop)]
pub struct DescriptionRow {
    /// The object.
    pub objoid: u32,
    /// The table that the object's row stands in.
    pub classoid: u32,
    /// The number of a column, or 0.
    pub objsubid: i64,
    pub description: Text,
}

impl TableRow for DescriptionRow {
    ghost table = { PgDescription };

    ghost cells = { description_cells };

    fn width() -> usize {
        PG_DESCRIPTION.columns.len()
    }

    #[tactic(auto, unfolding(crate::specs::Reading::cells_at))]
    fn read(mut row: Columns) -> Result<DescriptionRow, ReadCellsError> {
        let objoid = row.oid()?;
        let classoid = row.oid()?;
        let objsubid = row.int()?;
        let description = row.text()?;
        Ok(DescriptionRow {
            objoid,
            classoid,
            objsubid,
            description,
        })
    }

    fn write(&self, fields: &mut Fields) -> Result<(), AllocError> {
        fields.oid(self.objoid)?;
        fields.oid(self.classoid)?;
        fields.int(&self.objsubid)?;
        fields.text(&self.description)
    }

    fn key(&self) -> (i64, i64, i64) {
        (
            i64::from(self.classoid),
            i64::from(self.objoid),
            self.objsubid,
        )
    }
}

/// A dependency that no other table tells. See <https://www.postgresql.org/docs/16/catalog-pg-depend.html>.
#[derive(Drop)]
pub struct DependRow {
    /// The table that the dependent object's row stands in.
    pub classid: u32,
    /// The dependent object.
    pub objid: u32,
    /// The number of its column, or 0.
    pub objsubid: i64,
    /// The table that the other object's row stands in.
    pub refclassid: u32,
    /// The other object.
    pub refobjid: u32,
    /// The number of its column, or 0.
    pub refobjsubid: i64,
    /// What kind of dependency it is.
    pub deptype: Letter,
}

impl TableRow for DependRow {
    ghost table = { PgDepend };

    ghost cells = { depend_cells };

    fn width() -> usize {
        PG_DEPEND.columns.len()
    }

    #[tactic(auto, unfolding(crate::specs::Reading::cells_at))]
    fn read(mut row: Columns) -> Result<DependRow, ReadCellsError> {
        let classid = row.oid()?;
        let objid = row.oid()?;
        let objsubid = row.int()?;
        let refclassid = row.oid()?;
        let refobjid = row.oid()?;
        let refobjsubid = row.int()?;
        let deptype = row.letter()?;
        Ok(DependRow {
            classid,
            objid,
            objsubid,
            refclassid,
            refobjid,
            refobjsubid,
            deptype,
        })
    }

    fn write(&self, fields: &mut Fields) -> Result<(), AllocError> {
        fields.oid(self.classid)?;
        fields.oid(self.objid)?;
        fields.int(&self.objsubid)?;
        fields.oid(self.refclassid)?;
        fields.oid(self.refobjid)?;
        fields.int(&self.refobjsubid)?;
        fields.letter(self.deptype)
    }

    fn key(&self) -> (i64, i64, i64) {
        (0, 0, 0)
    }
}

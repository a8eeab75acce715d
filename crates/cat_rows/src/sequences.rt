//! The rows of pg_sequence.
ghost use Rattle.cat_rows.specs.declared.table.SysTable.TheVariants.{PgSequence};
ghost use Rattle.cat_rows.specs.RowCells.{sequence_cells};

use crate::columns::Columns;
use crate::fault::ReadCellsError;
use crate::fields::Fields;
use crate::kind::PG_SEQUENCE;
use crate::table_row::TableRow;
use copy_text::Text;
use std::alloc::AllocError;

/// The parameters and the value of a sequence. See <https://www.postgresql.org/docs/16/catalog-pg-sequence.html>.
#[derive(Drop)]
pub struct SequenceRow {
    /// The sequence.
    pub seqrelid: u32,
    pub seqtype: Text,
    pub seqstart: i64,
    pub seqincrement: i64,
    pub seqmax: i64,
    pub seqmin: i64,
    pub seqcache: i64,
    pub seqcycle: bool,
    pub last_value: i64,
    /// Whether the value was given out.
    pub is_called: bool,
    /// The table of the column that owns it; 0 is none.
    pub ownrel: u32,
    /// The number of that column.
    pub owncol: i64,
}

impl TableRow for SequenceRow {
    ghost table = { PgSequence };

    ghost cells = { sequence_cells };

    fn width() -> usize {
        PG_SEQUENCE.columns.len()
    }

    #[tactic(auto, unfolding(crate::specs::Reading::cells_at))]
    fn read(mut row: Columns) -> Result<SequenceRow, ReadCellsError> {
        let seqrelid = row.oid()?;
        let seqtype = row.text()?;
        let seqstart = row.int()?;
        let seqincrement = row.int()?;
        let seqmax = row.int()?;
        let seqmin = row.int()?;
        let seqcache = row.int()?;
        let seqcycle = row.bool()?;
        let last_value = row.int()?;
        let is_called = row.bool()?;
        let ownrel = row.oid()?;
        let owncol = row.int()?;
        Ok(SequenceRow {
            seqrelid,
            seqtype,
            seqstart,
            seqincrement,
            seqmax,
            seqmin,
            seqcache,
            seqcycle,
            last_value,
            is_called,
            ownrel,
            owncol,
        })
    }

    fn write(&self, fields: &mut Fields) -> Result<(), AllocError> {
        fields.oid(self.seqrelid)?;
        fields.text(&self.seqtype)?;
        fields.int(&self.seqstart)?;
        fields.int(&self.seqincrement)?;
        fields.int(&self.seqmax)?;
        fields.int(&self.seqmin)?;
        fields.int(&self.seqcache)?;
        fields.bool(self.seqcycle)?;
        fields.int(&self.last_value)?;
        fields.bool(self.is_called)?;
        fields.oid(self.ownrel)?;
        fields.int(&self.owncol)
    }

    fn key(&self) -> (i64, i64, i64) {
        (i64::from(self.seqrelid), 0, 0)
    }
}

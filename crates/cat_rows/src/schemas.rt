//! The rows of pg_namespace.
ghost use Rattle.cat_rows.specs.declared.table.SysTable.TheVariants.{PgNamespace};
ghost use Rattle.cat_rows.specs.RowCells.{namespace_cells};

use crate::columns::Columns;
use crate::fault::ReadCellsError;
use crate::fields::Fields;
use crate::kind::PG_NAMESPACE;
use crate::table_row::TableRow;
use acl_text::Acl;
use copy_text::Name;
use std::alloc::AllocError;

/// A schema. See <https://www.postgresql.org/docs/16/catalog-pg-namespace.html>.
#[derive(Drop)]
pub struct NamespaceRow {
    pub oid: u32,
    pub nspname: Name,
    /// The role that owns it.
    pub nspowner: u32,
    /// Its rights; null stands for the default ones.
    pub nspacl: Option<Acl>,
}

impl TableRow for NamespaceRow {
    ghost table = { PgNamespace };

    ghost cells = { namespace_cells };

    fn width() -> usize {
        PG_NAMESPACE.columns.len()
    }

    #[tactic(auto, unfolding(crate::specs::Reading::cells_at))]
    fn read(mut row: Columns) -> Result<NamespaceRow, ReadCellsError> {
        let oid = row.oid()?;
        let nspname = row.name()?;
        let nspowner = row.oid()?;
        let nspacl = row.acl()?;
        Ok(NamespaceRow {
            oid,
            nspname,
            nspowner,
            nspacl,
        })
    }

    fn write(&self, fields: &mut Fields) -> Result<(), AllocError> {
        fields.oid(self.oid)?;
        fields.name(&self.nspname)?;
        fields.oid(self.nspowner)?;
        fields.acl(&self.nspacl)
    }

    fn key(&self) -> (i64, i64, i64) {
        (i64::from(self.oid), 0, 0)
    }
}

//! The rows of the tables of tables, views and indexes.
ghost use Rattle.cat_rows.specs.declared.table.SysTable.TheVariants.{PgClass, PgAttribute, PgAttrdef, PgIndex, PgRewrite};
ghost use Rattle.cat_rows.specs.RowCells.{class_cells, attribute_cells, attrdef_cells, index_cells, rewrite_cells};

use crate::columns::Columns;
use crate::fault::ReadCellsError;
use crate::fields::Fields;
use crate::kind::{PG_ATTRDEF, PG_ATTRIBUTE, PG_CLASS, PG_INDEX, PG_REWRITE};
use crate::letter::Letter;
use crate::table_row::TableRow;
use acl_text::Acl;
use copy_text::{Name, Text};
use std::alloc::AllocError;

/// A table, view, sequence or index. See <https://www.postgresql.org/docs/16/catalog-pg-class.html>.
#[derive(Drop)]
pub struct ClassRow {
    pub oid: u32,
    pub relname: Name,
    /// Its schema.
    pub relnamespace: u32,
    /// `r` table, `v` view, `S` sequence, `i` index.
    pub relkind: Letter,
    /// The role that owns it.
    pub relowner: u32,
    /// `p` for one that is kept.
    pub relpersistence: Letter,
    /// Its rights; null stands for the default ones.
    pub relacl: Option<Acl>,
}

impl TableRow for ClassRow {
    ghost table = { PgClass };

    ghost cells = { class_cells };

    fn width() -> usize {
        PG_CLASS.columns.len()
    }

    #[tactic(auto, unfolding(crate::specs::Reading::cells_at))]
    fn read(mut row: Columns) -> Result<ClassRow, ReadCellsError> {
        let oid = row.oid()?;
        let relname = row.name()?;
        let relnamespace = row.oid()?;
        let relkind = row.letter()?;
        let relowner = row.oid()?;
        let relpersistence = row.letter()?;
        let relacl = row.acl()?;
        Ok(ClassRow {
            oid,
            relname,
            relnamespace,
            relkind,
            relowner,
            relpersistence,
            relacl,
        })
    }

    fn write(&self, fields: &mut Fields) -> Result<(), AllocError> {
        fields.oid(self.oid)?;
        fields.name(&self.relname)?;
        fields.oid(self.relnamespace)?;
        fields.letter(self.relkind)?;
        fields.oid(self.relowner)?;
        fields.letter(self.relpersistence)?;
        fields.acl(&self.relacl)
    }

    fn key(&self) -> (i64, i64, i64) {
        (i64::from(self.oid), 0, 0)
    }
}

/// A column of a table or view. See <https://www.postgresql.org/docs/16/catalog-pg-attribute.html>.
#[derive(Drop)]
pub struct AttributeRow {
    /// The table or view.
    pub attrelid: u32,
    /// The number of the column.
    pub attnum: i64,
    pub attname: Name,
    /// Its user type; 0 is none.
    pub atttypid: u32,
    /// Its type as text.
    pub typtext: Text,
    pub attnotnull: bool,
}

impl TableRow for AttributeRow {
    ghost table = { PgAttribute };

    ghost cells = { attribute_cells };

    fn width() -> usize {
        PG_ATTRIBUTE.columns.len()
    }

    #[tactic(auto, unfolding(crate::specs::Reading::cells_at))]
    fn read(mut row: Columns) -> Result<AttributeRow, ReadCellsError> {
        let attrelid = row.oid()?;
        let attnum = row.int()?;
        let attname = row.name()?;
        let atttypid = row.oid()?;
        let typtext = row.text()?;
        let attnotnull = row.bool()?;
        Ok(AttributeRow {
            attrelid,
            attnum,
            attname,
            atttypid,
            typtext,
            attnotnull,
        })
    }

    fn write(&self, fields: &mut Fields) -> Result<(), AllocError> {
        fields.oid(self.attrelid)?;
        fields.int(&self.attnum)?;
        fields.name(&self.attname)?;
        fields.oid(self.atttypid)?;
        fields.text(&self.typtext)?;
        fields.bool(self.attnotnull)
    }

    fn key(&self) -> (i64, i64, i64) {
        (i64::from(self.attrelid), self.attnum, 0)
    }
}

/// The default of a column. See <https://www.postgresql.org/docs/16/catalog-pg-attrdef.html>.
#[derive(Drop)]
pub struct AttrdefRow {
    pub oid: u32,
    /// The table.
    pub adrelid: u32,
    /// The number of the column.
    pub adnum: i64,
    pub adexpr: Text,
}

impl TableRow for AttrdefRow {
    ghost table = { PgAttrdef };

    ghost cells = { attrdef_cells };

    fn width() -> usize {
        PG_ATTRDEF.columns.len()
    }

    #[tactic(auto, unfolding(crate::specs::Reading::cells_at))]
    fn read(mut row: Columns) -> Result<AttrdefRow, ReadCellsError> {
        let oid = row.oid()?;
        let adrelid = row.oid()?;
        let adnum = row.int()?;
        let adexpr = row.text()?;
        Ok(AttrdefRow {
            oid,
            adrelid,
            adnum,
            adexpr,
        })
    }

    fn write(&self, fields: &mut Fields) -> Result<(), AllocError> {
        fields.oid(self.oid)?;
        fields.oid(self.adrelid)?;
        fields.int(&self.adnum)?;
        fields.text(&self.adexpr)
    }

    fn key(&self) -> (i64, i64, i64) {
        (i64::from(self.oid), 0, 0)
    }
}

/// An index that stands for no constraint. See <https://www.postgresql.org/docs/16/catalog-pg-index.html>.
#[derive(Drop)]
pub struct IndexRow {
    /// The index.
    pub indexrelid: u32,
    /// Its table.
    pub indrelid: u32,
    pub indisunique: bool,
    /// The statement that makes it.
    pub indexdef: Text,
}

impl TableRow for IndexRow {
    ghost table = { PgIndex };

    ghost cells = { index_cells };

    fn width() -> usize {
        PG_INDEX.columns.len()
    }

    #[tactic(auto, unfolding(crate::specs::Reading::cells_at))]
    fn read(mut row: Columns) -> Result<IndexRow, ReadCellsError> {
        let indexrelid = row.oid()?;
        let indrelid = row.oid()?;
        let indisunique = row.bool()?;
        let indexdef = row.text()?;
        Ok(IndexRow {
            indexrelid,
            indrelid,
            indisunique,
            indexdef,
        })
    }

    fn write(&self, fields: &mut Fields) -> Result<(), AllocError> {
        fields.oid(self.indexrelid)?;
        fields.oid(self.indrelid)?;
        fields.bool(self.indisunique)?;
        fields.text(&self.indexdef)
    }

    fn key(&self) -> (i64, i64, i64) {
        (i64::from(self.indexrelid), 0, 0)
    }
}

/// The query of a view. See <https://www.postgresql.org/docs/16/catalog-pg-rewrite.html>.
#[derive(Drop)]
pub struct RewriteRow {
    pub oid: u32,
    /// The view.
    pub ev_class: u32,
    pub viewdef: Text,
}

impl TableRow for RewriteRow {
    ghost table = { PgRewrite };

    ghost cells = { rewrite_cells };

    fn width() -> usize {
        PG_REWRITE.columns.len()
    }

    #[tactic(auto, unfolding(crate::specs::Reading::cells_at))]
    fn read(mut row: Columns) -> Result<RewriteRow, ReadCellsError> {
        let oid = row.oid()?;
        let ev_class = row.oid()?;
        let viewdef = row.text()?;
        Ok(RewriteRow {
            oid,
            ev_class,
            viewdef,
        })
    }

    fn write(&self, fields: &mut Fields) -> Result<(), AllocError> {
        fields.oid(self.oid)?;
        fields.oid(self.ev_class)?;
        fields.text(&self.viewdef)
    }

    fn key(&self) -> (i64, i64, i64) {
        (i64::from(self.oid), 0, 0)
    }
}

//! The text of pg_namespace for the schemas of a folder.
ghost use Rattle.std.specs.Prelude.{◌≡◌, List, [], ◌++◌, ◌∷◌, map, take, IfOk, OnOk};
ghost use Rattle.cat_rows.specs.declared.cell.Cell.{Cell as CellValue};
ghost use Rattle.cat_rows.specs.declared.table.SysTable.TheVariants.{PgNamespace};
ghost use Rattle.cat_rows.specs.RowCells.{namespace_cells};
ghost use Rattle.cat_rows.specs.Writing.{IsWritten};
ghost use Rattle.schema_folders.specs.Folder.{cells_of_row, IsNamespaces};

use crate::schemas::{SchemaRow, Schemas};
use cat_rows::{Catalogue, NamespaceRow, SysTable, write_table};
use std::alloc::{AllocError, Global};

/// The oid of the role that owns each schema.
const BOOT_ROLE: u32 = 10;

/// The text of pg_namespace that holds these schemas, by rising oid. It reads as them.
pub fn namespaces_text(alloc: Global, schemas: Schemas) -> Result<Vec<u8>, AllocError>
    ensures { IfOk result (λ text. IsNamespaces schemas text.items) }
{
    let rows = schemas.into_rows();
    rows_text(alloc, rows)
}

/// The text of pg_namespace that holds these rows, by rising oid.
fn rows_text(alloc: Global, rows: Vec<SchemaRow>) -> Result<Vec<u8>, AllocError>
    ensures { IfOk result (λ text. (written : List (List CellValue)) × IsWritten PgNamespace (map cells_of_row rows.items) written [] text.items) }
{
    let mut catalogue = Catalogue::new(alloc);
    let mut left = rows.into_iter();
    'rows: while let Some(row) = left.next() {
        catalogue.pg_namespace.push(namespace_row(row))?;
    }
    let mut text = Vec::new(alloc);
    write_table(alloc, &catalogue, SysTable::PgNamespace, &mut text)?;
    Ok(text)
}

/// The row that a schema has in pg_namespace.
fn namespace_row(row: SchemaRow) -> NamespaceRow
    ensures { namespace_cells result ≡ cells_of_row row }
{
    let SchemaRow { oid, name } = row;
    NamespaceRow {
        oid,
        nspname: name,
        nspowner: BOOT_ROLE,
        nspacl: None,
    }
}

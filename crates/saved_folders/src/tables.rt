//! The texts of the system tables.
ghost use Rattle.std.specs.Prelude.{◌≡◌, map, IfOk};
ghost use Rattle.std.specs.List.{AllByRecursion};
ghost use Rattle.folder_io.specs.Folders.{all_tables};
ghost use Rattle.saved_folders.specs.Folders.{IsTextOf};

use cat_rows::{Catalogue, SysTable, write_table};
use std::alloc::{AllocError, Global};
use std::marker::Model;

/// A system table, and the text of its file.
#[derive(Drop)]
pub(crate) struct TableText {
    table: SysTable,
    bytes: Vec<u8>,
}

impl Model for TableText {
    ghost use Rattle.folder_io.specs.Folders.{TextOfTable};

    ghost Value = { TextOfTable };

    ghost view = { λ t. record { table = t.table; text = t.bytes.items } };
}

impl TableText {
    /// The table.
    pub(crate) fn table(&self) -> SysTable
        ensures { result ≡ self.now.table }
    {
        self.table
    }

    /// The text of its file.
    pub(crate) fn bytes(&self) -> &[u8]
        ensures { result.now ≡ self.now.text }
    {
        &self.bytes
    }
}

/// The texts of a catalogue's tables, in the order of their files.
pub(crate) fn table_texts(alloc: Global, cat: &Catalogue) -> Result<Vec<TableText>, AllocError>
    ensures tables { IfOk result (λ texts. map (λ text. text.table) texts.items ≡ all_tables) }
    ensures written { IfOk result (λ texts. AllByRecursion (IsTextOf cat.now) texts.items) }
{
    let mut texts = Vec::new(alloc);
    for table in &SysTable::ALL {
        let text = table_text(alloc, cat, *table)?;
        texts.push(text)?;
    }
    Ok(texts)
}

/// The text of a table: its rows in the table's order.
fn table_text(alloc: Global, cat: &Catalogue, table: SysTable) -> Result<TableText, AllocError>
    ensures table { IfOk result (λ text. text.table ≡ table) }
    ensures written { IfOk result (IsTextOf cat.now) }
{
    let mut bytes = Vec::new(alloc);
    write_table(alloc, cat, table, &mut bytes)?;
    Ok(TableText { table, bytes })
}

//! The texts of tables, and the rows that they hold.
ghost use Rattle.std.specs.Prelude.{◌≡◌, ◌*◌, ◌≤◌, map, Ok, IfErr};
ghost use Rattle.cat_rows.specs.Catalogues.{rows_in, SameBut};
ghost use Rattle.folder_io.specs.Answers.{Gives, IsCallFree};
ghost use Rattle.folder_io.specs.Folders.{all_tables, table_limit, texts_length, rows_of, tables_of, catalogue_rows};

use crate::fault::{ExportKind, FolderFault};
use crate::file::ExportFile;
use cat_rows::{Catalogue, ReadTableError, SysTable, read_table};
use std::alloc::Global;
use std::marker::Model;

/// A table, and the text of its file.
#[derive(Drop)]
pub(crate) struct TableText {
    pub(crate) table: SysTable,
    pub(crate) bytes: Vec<u8>,
}

impl Model for TableText {
    ghost use Rattle.folder_io.specs.Folders.{TextOfTable};

    ghost Value = { TextOfTable };

    ghost view = { λ t. record { table = t.table; text = t.bytes.items } };
}

/// How many bytes these texts of all tables have together.
pub(crate) fn total_length(texts: &[TableText]) -> u64
    requires { texts_length texts.now ≤ 15 * table_limit }
    ensures { result ≡ texts_length texts.now }
{
    texts.iter().map(|text| text.bytes.len() as u64).sum()
}

/// The catalogue whose rows these texts of all tables hold.
pub(crate) fn read_tables(alloc: Global, texts: &[TableText]) -> Result<Catalogue, FolderFault>
    requires { map (λ text. text.table) texts.now ≡ all_tables }
    ensures due { Gives catalogue_rows result (tables_of texts.now) }
    ensures call_free { IfErr result IsCallFree }
{
    let mut cat = Catalogue::new(alloc);
    for text in texts {
        read_rows(alloc, &mut cat, text)?;
    }
    Ok(cat)
}

/// Replaces the rows of a table by those of its text. After an `Err` the catalogue is unchanged.
fn read_rows(alloc: Global, cat: &mut Catalogue, text: &TableText) -> Result<(), FolderFault>
    ensures due { Gives (λ _. rows_in text.now.table cat.new) result (rows_of text.now) }
    ensures call_free { IfErr result IsCallFree }
    ensures others { SameBut text.now.table cat.old cat.new }
{
    match read_table(alloc, cat, text.table, &text.bytes) {
        Ok(()) => Ok(()),
        Err(ReadTableError::Fault(fault)) => Err(FolderFault::BadExport {
            file: ExportFile::Table(text.table),
            line: fault.line,
            kind: ExportKind::Row(fault.fault),
        }),
        Err(ReadTableError::Memory) => Err(FolderFault::Memory),
    }
}

//! What the cases of a block stand on: texts of system tables, and rows.
use crate::fault::TrialFault;
use cat_names::DataSet;
use cat_rows::{Catalogue, ReadTableError, SysTable, read_table};
use dump_ports::{Files, WholeFault, read_whole};
use std::alloc::{AllocError, Global};
use text_cases::{decoded, table_of};

/// How many bytes a file of a folder may have.
const LIMIT: u64 = 1 << 27;

/// A system table's text.
#[derive(Drop)]
pub struct TableText {
    pub table: SysTable,
    pub text: Vec<u8>,
}

/// The text of the rows of the table of an oid.
#[derive(Drop)]
pub struct RowsText {
    pub oid: u32,
    pub text: Vec<u8>,
}

/// Texts of system tables, and rows of tables. Of two texts of a table the later counts.
#[derive(Drop)]
pub struct Base {
    pub tables: Vec<TableText>,
    pub rows: Vec<RowsText>,
}

impl Base {
    /// Nothing.
    pub fn new(alloc: Global) -> Base {
        Base {
            tables: Vec::new(alloc),
            rows: Vec::new(alloc),
        }
    }

    /// Adds what `TABLE TEXT` or `rows OID TEXT` says, and tells whether it says so.
    pub fn add(&mut self, alloc: Global, said: &str) -> Result<bool, AllocError> {
        let Some((word, rest)) = said.split_once(' ') else {
            return Ok(false);
        };
        if word == "rows" {
            return self.add_rows(alloc, rest);
        }
        let (Some(table), Some(text)) = (table_of(word), decoded(alloc, rest)?) else {
            return Ok(false);
        };
        self.tables.push(TableText { table, text })?;
        Ok(true)
    }

    fn add_rows(&mut self, alloc: Global, said: &str) -> Result<bool, AllocError> {
        let Some((oid, rest)) = said.split_once(' ') else {
            return Ok(false);
        };
        let (Ok(oid), Some(text)) = (oid.parse::<u32>(), decoded(alloc, rest)?) else {
            return Ok(false);
        };
        self.rows.push(RowsText { oid, text })?;
        Ok(true)
    }

    /// Adds all that a line says, piece by piece with ` | ` between, and tells whether each piece says something.
    pub fn add_all(&mut self, alloc: Global, line: &str) -> Result<bool, AllocError> {
        for piece in line.split(" | ") {
            if !self.add(alloc, piece)? {
                return Ok(false);
            }
        }
        Ok(true)
    }

    /// Adds the system tables of a folder, and tells whether each was there.
    pub fn add_folder<F: Files>(
        &mut self,
        alloc: Global,
        files: &mut F,
        folder: &str,
    ) -> Result<bool, TrialFault> {
        for table in SysTable::ALL {
            let name = format!(in alloc; "{folder}/{}", table.file_name())?;
            match read_whole(alloc, files, name.as_str(), LIMIT) {
                Ok(Some(text)) => self
                    .tables
                    .push(TableText { table, text })
                    .map_err(AllocError::from)?,
                Ok(None) => return Ok(false),
                Err(WholeFault::Memory) => return Err(TrialFault::Memory),
                Err(_) => return Err(TrialFault::Failed),
            }
        }
        Ok(true)
    }

    /// The text of a table; empty where none was added.
    pub fn text(&self, table: SysTable) -> &[u8] {
        let mut text: &[u8] = &[];
        for it in &self.tables {
            if it.table == table {
                text = &it.text;
            }
        }
        text
    }

    /// Reads its tables into a catalogue, and tells whether all were read.
    pub fn read_into(&self, alloc: Global, cat: &mut Catalogue) -> Result<bool, AllocError> {
        for it in &self.tables {
            match read_table(alloc, cat, it.table, &it.text) {
                Ok(()) => {}
                Err(ReadTableError::Fault(_)) => return Ok(false),
                Err(ReadTableError::Memory) => return Err(AllocError),
            }
        }
        Ok(true)
    }

    /// Its rows by their tables' oids.
    pub fn data(&self, alloc: Global) -> Result<DataSet, AllocError> {
        let mut data = DataSet::new(alloc);
        for it in &self.rows {
            data.put(it.oid, it.text.clone()?)?;
        }
        Ok(data)
    }
}

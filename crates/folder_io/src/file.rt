//! The files of an export folder.
ghost use Rattle.std.specs.Prelude.{◌≡◌, ◌++◌, OnOk, Some, string_bytes};
ghost use Rattle.folder_io.specs.Folders.{file_name};

use cat_rows::SysTable;
use itoa::Buffer;
use std::alloc::AllocError;
use std::fmt;

/// A file of an export folder.
#[derive(Clone, Copy, Debug, PartialEq, Eq)]
pub enum ExportFile {
    /// The file that tells the format's version.
    Marker,
    /// The file of a system table.
    Table(SysTable),
    /// The file of the rows of a table, by the table's oid.
    Data(u32),
}

impl ExportFile {
    /// The file's name inside the folder in three parts, so that it takes no memory: `format`, as `pg_namespace.copy`, or
    /// as `data/16384.copy`. The digits of an oid go into the buffer.
    pub fn name_parts(self, digits: &mut Buffer) -> (&'static str, &str, &'static str)
        ensures { result.0.now ++ result.1.now ++ result.2.now ≡ file_name self }
    {
        match self {
            ExportFile::Marker => ("format", "", ""),
            ExportFile::Table(table) => (table.file_name(), "", ""),
            ExportFile::Data(oid) => ("data/", digits.format(oid), ".copy"),
        }
    }

    /// Appends the file's name inside the folder. The only error is that memory ran out.
    pub fn push_name(self, out: &mut String) -> Result<(), AllocError>
        ensures { OnOk result (string_bytes out.new ≡ string_bytes out.old ++ file_name self) }
    {
        let mut digits = Buffer::new();
        let (before, number, behind) = self.name_parts(&mut digits);
        out.push_str(before)?;
        out.push_str(number)?;
        out.push_str(behind)
    }
}

impl fmt::Display for ExportFile {
    ghost output = { λ file. Some (file_name file) };

    fn fmt<W: fmt::Write>(&self, f: &mut fmt::Formatter<W>) -> fmt::Result {
        let mut digits = Buffer::new();
        let (before, number, behind) = self.name_parts(&mut digits);
        f.write_str(before)?;
        f.write_str(number)?;
        f.write_str(behind)
    }
}

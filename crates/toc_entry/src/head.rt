//! The head of an archive.
use copy_text::Text;
use dump_ports::Moment;

/// What an archive says of itself before its entries. A plain script shows the two versions of it alone.
/// <https://www.postgresql.org/docs/16/app-pgdump.html>
#[derive(Drop)]
pub struct Head {
    /// The format's version, first number; a dump writes 1.
    pub major: u8,
    /// The format's version, second number; a dump writes 15.
    pub minor: u8,
    /// The format's version, third number; a dump writes 0, and any is read.
    pub revision: u8,
    /// The code of the format: 1 custom, 3 tar, 4 plain, 5 directory. A directory's `toc.dat` carries 3.
    pub format: u8,
    /// The code of the compression: 0 none, 1 gzip, 2 lz4, 3 zstd.
    pub compression: u8,
    /// When the dump was made.
    pub moment: Moment,
    /// The name of the database that was dumped.
    pub dbname: Text,
    /// The version of the database that was dumped.
    pub server: Text,
    /// The version of the tool that dumped it.
    pub dumper: Text,
}

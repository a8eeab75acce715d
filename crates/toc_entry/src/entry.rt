//! The entries of a table of contents.
use crate::dump_ids::DumpIds;
use copy_text::Text;

/// An object of an archive: how it is made, what it needs, and whether rows of it follow.
///
/// A text that is `None` isn't there; an empty text is one of length 0. Statements end with `;` and a line feed.
/// <https://www.postgresql.org/docs/16/app-pgrestore.html>
#[derive(Drop)]
pub struct Entry {
    /// The number by which other entries and lists name it, from 1. No two entries of an archive share one.
    pub dump_id: u32,
    /// Whether the archive holds rows for it.
    pub has_rows: bool,
    /// The oid of the system table that holds the object, or 0.
    pub tableoid: u32,
    /// The object's oid in that table, or 0.
    pub oid: u32,
    /// The object's name, for some kinds with the name of what it belongs to.
    pub tag: Text,
    /// The kind of the entry, as `SCHEMA` or `TABLE DATA`.
    pub desc: Text,
    /// When it is restored: 1 none of its own, 2 pre-data, 3 data, 4 post-data.
    pub section: u8,
    /// The statements that make the object.
    pub defn: Option<Text>,
    /// The statement that takes it away again.
    pub drop_stmt: Option<Text>,
    /// The COPY statement that takes its rows.
    pub copy_stmt: Option<Text>,
    /// The schema that it stands in.
    pub namespace: Option<Text>,
    /// Its tablespace; empty is the default one.
    pub tablespace: Option<Text>,
    /// Its table access method.
    pub tableam: Option<Text>,
    /// The role that owns it.
    pub owner: Option<Text>,
    /// The dump ids of the entries that it needs.
    pub depends: DumpIds,
    /// Where its rows are.
    pub extra: Extra,
}

/// Where an archive keeps the rows of an entry.
#[derive(Drop)]
pub enum Extra {
    /// In the custom format: a place of the same file.
    Place {
        /// 1: the place isn't told, 2: it is, 3: there are no rows.
        state: u8,
        /// The place, in bytes from the file's start; 0 where it isn't told.
        offset: u64,
    },
    /// In the directory format: the name of a file of the directory; empty where there are no rows.
    File(Text),
}

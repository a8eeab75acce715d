//! What the words of a command line ask for.

use crate::lists::{Names, Patterns, SectionList};
use crate::values::Format;
use copy_text::Text;

/// What the words ask for: one variant a tool, with the values of its options and its other words.
#[derive(Drop)]
pub enum Command {
    /// Writes a folder as an archive or a script.
    PgDump(DumpWords),
    /// Restores an archive into a folder, or shows it as a script or a list.
    PgRestore(RestoreWords),
    /// Writes the roles, and the database, of a folder as a script.
    PgDumpall(DumpallWords),
    /// Applies a script to a folder.
    Psql(PsqlWords),
    /// Compares two folders.
    PgCatcmp(CompareWords),
    /// Dumps a folder and restores the archive into another.
    PgClone(CloneWords),
    /// Makes a large folder, dumps it and restores it.
    PgGen(GenWords),
}

/// A folder, as it was named.
#[derive(Drop)]
pub enum Folder {
    /// By `-d`.
    Dbname(Text),
    /// As a word of its own.
    Word(Text),
}

/// Which objects are dumped, and how.
#[derive(Drop)]
pub struct Choice {
    /// `-a`: rows and values of sequences alone.
    pub data_only: bool,
    /// `-s`: all but these.
    pub schema_only: bool,
    /// `-n`: the schemas that are taken; none stands for all.
    pub schemas: Patterns,
    /// `-N`: the schemas that are not.
    pub exclude_schemas: Patterns,
    /// `-t`: the tables, views and sequences that are taken; none stands for all.
    pub tables: Patterns,
    /// `-T`: those that are not.
    pub exclude_tables: Patterns,
    /// `--exclude-table-data`: the tables whose rows are not.
    pub exclude_table_data: Patterns,
    /// `-O`: owners are left unset.
    pub no_owner: bool,
    /// `-x`: no grants.
    pub no_privileges: bool,
    /// `--no-comments`.
    pub no_comments: bool,
    /// `--section`: the sections that are taken; none stands for all.
    pub sections: SectionList,
    /// `--strict-names`: each pattern has to hit.
    pub strict_names: bool,
}

/// The words of pg_dump. <https://www.postgresql.org/docs/16/app-pgdump.html>
#[derive(Drop)]
pub struct DumpWords {
    /// The folder.
    pub folder: Folder,
    /// `-f`: where the dump goes; standard output where it is absent or `-`.
    pub file: Option<Text>,
    /// `-F`: the format, a script where it is absent.
    pub format: Option<Format>,
    /// Which objects.
    pub choice: Choice,
    /// `-Z` is given. It takes only no compression.
    pub uncompressed: bool,
}

/// The words of pg_restore. <https://www.postgresql.org/docs/16/app-pgrestore.html>
#[derive(Drop)]
pub struct RestoreWords {
    /// `-d`: the folder that is restored into.
    pub dbname: Option<Text>,
    /// `-f`: where the script or the list goes; standard output where it is `-`.
    pub file: Option<Text>,
    /// `-F`: the archive's format; where it is absent the archive tells.
    pub format: Option<Format>,
    /// `-l`: the list is written.
    pub list: bool,
    /// `-L`: the file of a list that chooses and orders entries.
    pub use_list: Option<Text>,
    /// `-j`: the number of workers, 1 to 64. With `-f` or `-l` it means nothing.
    pub jobs: Option<u16>,
    /// `-1`: nothing is written where an entry is refused.
    pub single_transaction: bool,
    /// `-e`: ends at the first refusal.
    pub exit_on_error: bool,
    /// `-a`: rows and values of sequences alone.
    pub data_only: bool,
    /// `-s`: all but these.
    pub schema_only: bool,
    /// `-n`: the schemas that are taken; none stands for all.
    pub schemas: Names,
    /// `-N`: the schemas that are not.
    pub exclude_schemas: Names,
    /// `-t`: the tables, views and sequences that are taken; none stands for all.
    pub tables: Names,
    /// `-O`: no owners are set.
    pub no_owner: bool,
    /// `-x`: no grants.
    pub no_privileges: bool,
    /// `--no-comments`.
    pub no_comments: bool,
    /// `--section`: the sections that are taken; none stands for all.
    pub sections: SectionList,
    /// The archive; standard input where it is absent or `-`.
    pub archive: Option<Text>,
}

/// The words of pg_dumpall. <https://www.postgresql.org/docs/16/app-pg-dumpall.html>
#[derive(Drop)]
pub struct DumpallWords {
    /// `-d`: the folder.
    pub dbname: Text,
    /// `-f`: where the script goes; standard output where it is absent or `-`.
    pub file: Option<Text>,
    /// `-g`: no database.
    pub globals_only: bool,
    /// `-r`: roles alone.
    pub roles_only: bool,
    /// `-s`: no rows.
    pub schema_only: bool,
    /// `-O`: no owners are set.
    pub no_owner: bool,
    /// `-x`: no grants.
    pub no_privileges: bool,
}

/// The words of psql. <https://www.postgresql.org/docs/16/app-psql.html>
#[derive(Drop)]
pub struct PsqlWords {
    /// The folder.
    pub folder: Folder,
    /// `-f`: the script; standard input where it is absent or `-`.
    pub file: Option<Text>,
    /// `-v ON_ERROR_STOP=1`: ends at the first refused statement.
    pub on_error_stop: bool,
}

/// The words of pg_catcmp.
#[derive(Drop)]
pub struct CompareWords {
    /// The first folder.
    pub first: Text,
    /// The second folder.
    pub second: Text,
}

/// The words of pg_clone.
#[derive(Drop)]
pub struct CloneWords {
    /// `-F`: the format, a script where it is absent.
    pub format: Option<Format>,
    /// `-f`: the archive that is written and restored.
    pub file: Text,
    /// `-j`: the number of workers, 1 to 64.
    pub jobs: Option<u16>,
    /// Which objects.
    pub choice: Choice,
    /// The folder that is dumped.
    pub source: Text,
    /// The folder that is restored into.
    pub target: Text,
}

/// The words of pg_gen.
#[derive(Drop)]
pub struct GenWords {
    /// `-n`: the number of tables, 1 to 20,000.
    pub tables: u16,
    /// `-j`: the number of workers, 1 to 64.
    pub jobs: Option<u16>,
    /// `-f`: the folder that is made.
    pub file: Text,
}

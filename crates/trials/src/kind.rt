//! The kinds of cases.
use archive_cases::ArchiveKind;
use engine_cases::Shown;
use table_cases::{Checked, checked_of};
use text_cases::{TextKind, text_kind};

/// What the cases of a block are of.
#[derive(Clone, Copy)]
pub(crate) enum Kind {
    /// No kind that there is.
    Unknown,
    /// A text.
    Text(TextKind),
    /// An archive, or a part of one.
    Archive(ArchiveKind),
    /// An archive: the lists and scripts of its entries.
    List,
    /// Words of a command line.
    Words,
    /// A pattern.
    Pattern,
    /// Texts of system tables: the first fault of these tables.
    Check(Checked),
    /// A change to a folder: the first fault of its tables.
    Change,
    /// Texts of system tables: the least key at which the catalogue with them differs.
    Same,
    /// Texts of system tables: what the catalogue with them stands for by names.
    Named,
    /// Options of a dump: the objects that it chooses, in order.
    Select,
    /// A word and the options of a dump: its entries, the list of them, or its script.
    Dump,
    /// A script: what the engine makes of it.
    Script(Shown),
    /// A script: what psql answers and writes.
    Psql,
    /// A script: what pg_dump prints once it was applied.
    PgDump,
    /// A file and its text: what pg_catcmp tells of the folder with it.
    PgCatcmp,
    /// Words: what the program tells.
    Run,
    /// Words and the text of standard input: what the program tells and writes, and what is left of the input.
    Input,
}

fn other_of(name: &str) -> Kind {
    match name {
        "archive" => Kind::Archive(ArchiveKind::Archive),
        "entry" => Kind::Archive(ArchiveKind::Entry),
        "list" => Kind::List,
        "words" => Kind::Words,
        "pattern" => Kind::Pattern,
        "change" => Kind::Change,
        "same" => Kind::Same,
        "named" => Kind::Named,
        "select" => Kind::Select,
        "dump" => Kind::Dump,
        "psql" => Kind::Psql,
        "pg_dump" => Kind::PgDump,
        "pg_catcmp" => Kind::PgCatcmp,
        "call" => Kind::Run,
        "run" => Kind::Script(Shown::Keys),
        "run values" => Kind::Script(Shown::Values),
        "input" => Kind::Input,
        _ => text_kind(name).map_or(Kind::Unknown, Kind::Text),
    }
}

/// The kind of a name.
pub(crate) fn kind_of(name: &str) -> Kind {
    match name.split_once(' ') {
        Some(("check", tables)) => checked_of(tables).map_or(Kind::Unknown, Kind::Check),
        _ => other_of(name),
    }
}

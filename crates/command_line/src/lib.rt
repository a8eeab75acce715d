//! The words of a command line, read whole: which tool, with which options and other words, or the first word that fails.
//!
//! The tools and their options are those of <https://www.postgresql.org/docs/16/app-pgdump.html>,
//! <https://www.postgresql.org/docs/16/app-pgrestore.html>, <https://www.postgresql.org/docs/16/app-pg-dumpall.html> and
//! <https://www.postgresql.org/docs/16/app-psql.html>, as far as the program takes them, and three tools of its own.
#![tactic(auto)]

mod building;
mod checks;
mod command;
pub mod laws;
mod lists;
mod mentions;
mod options;
mod reader;
mod reading;
mod usage;
mod values;
mod words;

pub use command::{
    Choice, CloneWords, Command, CompareWords, DumpWords, DumpallWords, Folder, GenWords,
    PsqlWords, RestoreWords,
};
pub use lists::{Names, PatternWord, Patterns, SectionList};
pub use options::{Opt, Takes, Tool, ValueKind};
pub use usage::{ReadWordsError, UsageFault, UsageKind};
pub use values::{Format, MOST_JOBS, MOST_TABLES, Section};
pub use words::{read_words, usage_fault};

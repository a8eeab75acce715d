//! What a call of the program comes to.
ghost use Rattle.std.specs.Prelude.{◌≡◌, ℕ};
ghost use Rattle.tool_words.specs.Status.{status_of, script_outcome};
ghost use Rattle.tool_words.specs.Outcomes.{export_fault, limit_of, folder_outcome, fault_outcome, check_outcome, values_cause, values_outcome, check_values_outcome};
ghost use Rattle.tool_words.specs.declared.outcome.Outcome.TheVariants as outcomes;

use crate::keys::Difference;
use crate::stop::{RestoreStop, Stop};
use cat_model::{Cause, Items, What};
use cat_names::{CatFault, CheckError, FaultKind};
use cat_rows::RowFault;
use command_line::UsageKind;
use copy_text::Text;
use data_rows::DataFault;
use ddl_read::{DdlFault, ReadStmtsError};
use folder_io::{ExportFile, ExportKind, FolderFault, FolderLimit};
use graph_parts::ObjId;
use list_files::ListFault;
use std::alloc::AllocError;
use table_rows::{CheckValuesError, ValuesFault};
use toc_layout::ArchiveFault;

/// Which limit is passed.
#[derive(Clone, Copy)]
pub enum Limit {
    /// A script has at most 268,435,456 bytes.
    Script,
    /// The file of one system table has at most 134,217,728 bytes.
    TableFile,
    /// The file of one table's rows has at most 134,217,728 bytes.
    DataFile,
    /// The files of one folder have at most 268,435,456 bytes together.
    Folder,
    /// A dump, and an archive, has at most 200,000 entries.
    Entries,
    /// An archive in one file, and the files of an archive in a directory together, have at most 268,435,456 bytes.
    Archive,
    /// A list file has at most 268,435,456 bytes.
    ListFile,
}

/// A pattern that hits nothing: its place among those of its option, counted from 0.
#[derive(Clone, Copy)]
pub enum Unmatched {
    /// A pattern of schemas.
    Schemas(usize),
    /// A pattern of tables, views and sequences.
    Tables(usize),
}

/// What is wrong with a place of an export folder.
#[derive(Drop)]
pub enum ExportFault {
    /// The marker isn't that of version 1.
    Version,
    /// The line is no row of its table.
    Row(RowFault),
    /// The row doesn't fit to the others.
    Cat(FaultKind),
    /// The line is no row of the user's table: `BadRow` or `Fields`.
    Values(Cause),
}

/// What a call of the program comes to.
#[derive(Drop)]
pub enum Outcome {
    /// The input was read to its end and the output is written.
    Done,
    /// The words have no reading.
    Usage {
        /// The first word that fails, counted from 0; where something is missing, the number of words.
        word: usize,
        /// Why.
        kind: UsageKind,
    },
    /// Reading failed.
    ReadFault,
    /// Writing failed.
    WriteFault,
    /// A file that is needed is absent; its whole path.
    Missing(Text),
    /// The first place of an export folder that fails.
    BadExport {
        /// The file.
        file: ExportFile,
        /// The line, counted from 1; a row that must be there and isn't counts at the line after the last.
        line: u64,
        /// What is wrong.
        kind: ExportFault,
    },
    /// The script has no reading; the first place where it has none.
    BadScript(DdlFault),
    /// Something is met that the program doesn't support.
    OutOfProfile(What),
    /// A limit is passed. Where it is one of bytes, the number is the limit and one more; of entries it is their number.
    TooLarge(Limit, u64),
    /// Two folders stand for different catalogues by names; the least key at which they differ.
    Differs(Difference),
    /// A script ended at its first statement that was refused; what the statements before it leave was written.
    ScriptStopped(Stop),
    /// The archive has no reading; its first fault.
    BadArchive(ArchiveFault),
    /// The list file has no reading; its first line that names no entry.
    BadList(ListFault),
    /// The texts of an entry that is to be restored have no reading.
    BadDefn {
        /// The entry's dump id.
        entry: u32,
        /// The first place where they have none: in its definition, or in its command for rows with the rows behind it.
        fault: DdlFault,
    },
    /// A restore came to its end, and this many of its entries and notes were refused, one at least. What it leaves was
    /// written.
    WithErrors(u64),
    /// A restore ended at its first entry that was refused.
    RestoreStopped(RestoreStop),
    /// Objects of a folder need each other; each needs the next one, and the last is the first.
    Loop(Items<ObjId>),
    /// A pattern of what is to be dumped hits nothing.
    NoMatch(Unmatched),
    /// Memory ran out.
    Memory,
}

impl Outcome {
    /// The exit status: 0 for `Done`, 71 for `Memory`, as `EX_OSERR` of sysexits.h, 3 for `ScriptStopped`, as psql has it,
    /// and 1 for all others.
    /// <https://www.postgresql.org/docs/16/app-psql.html>
    pub fn status(&self) -> u8
        ensures { result ≡ status_of self.now }
    {
        match self {
            Outcome::Done => 0,
            Outcome::Memory => 71,
            Outcome::ScriptStopped(_) => 3,
            _ => 1,
        }
    }
}

impl From<AllocError> for Outcome {
    ghost from_gives = { λ _ outcome. outcome ≡ outcomes.Memory };

    fn from(_error: AllocError) -> Outcome {
        Outcome::Memory
    }
}

impl From<ReadStmtsError> for Outcome {
    ghost from_gives = { λ error outcome. outcome ≡ script_outcome error };

    fn from(error: ReadStmtsError) -> Outcome {
        match error {
            ReadStmtsError::Fault(fault) => Outcome::BadScript(fault),
            ReadStmtsError::Memory => Outcome::Memory,
        }
    }
}

impl From<FolderFault> for Outcome {
    ghost from_gives = { λ fault outcome. outcome ≡ folder_outcome fault };

    fn from(fault: FolderFault) -> Outcome {
        match fault {
            FolderFault::Failed => Outcome::ReadFault,
            FolderFault::Missing(name) => Outcome::Missing(name),
            FolderFault::BadExport { file, line, kind } => Outcome::BadExport {
                file,
                line,
                kind: export_fault(kind),
            },
            FolderFault::TooLarge(limit, most) => Outcome::TooLarge(limit_of(limit), most),
            FolderFault::Memory => Outcome::Memory,
        }
    }
}

/// What is wrong with a place, as reading the folder tells it.
fn export_fault(kind: ExportKind) -> ExportFault
    ensures { result ≡ export_fault kind }
{
    match kind {
        ExportKind::Version => ExportFault::Version,
        ExportKind::Row(fault) => ExportFault::Row(fault),
    }
}

/// The limit, as reading a folder tells it.
fn limit_of(limit: FolderLimit) -> Limit
    ensures { result ≡ limit_of limit }
{
    match limit {
        FolderLimit::TableFile => Limit::TableFile,
        FolderLimit::DataFile => Limit::DataFile,
        FolderLimit::Folder => Limit::Folder,
    }
}

impl From<CheckError> for Outcome {
    ghost from_gives = { λ error outcome. outcome ≡ check_outcome error };

    fn from(error: CheckError) -> Outcome {
        match error {
            CheckError::Fault(fault) => fault_outcome(fault),
            CheckError::Memory => Outcome::Memory,
        }
    }
}

/// The outcome where the rows don't fit together.
fn fault_outcome(fault: CatFault) -> Outcome
    ensures { result ≡ fault_outcome fault fault.kind }
{
    let CatFault { table, line, kind } = fault;
    match kind {
        FaultKind::OutOfProfile(what) => Outcome::OutOfProfile(what),
        kind => Outcome::BadExport {
            file: ExportFile::Table(table),
            line,
            kind: ExportFault::Cat(kind),
        },
    }
}

impl From<CheckValuesError> for Outcome {
    ghost from_gives = { λ error outcome. outcome ≡ check_values_outcome error };

    fn from(error: CheckValuesError) -> Outcome {
        match error {
            CheckValuesError::Fault(fault) => fault.into(),
            CheckValuesError::Memory => Outcome::Memory,
        }
    }
}

impl From<ValuesFault> for Outcome {
    ghost from_gives = { λ fault outcome. outcome ≡ values_outcome fault };

    fn from(fault: ValuesFault) -> Outcome {
        let ValuesFault { table, row, fault } = fault;
        Outcome::BadExport {
            file: ExportFile::Data(table),
            line: row,
            kind: ExportFault::Values(values_cause(row, fault)),
        }
    }
}

/// What is wrong with a row of a table's rows.
fn values_cause(row: u64, fault: DataFault) -> Cause
    ensures { result ≡ values_cause row fault }
{
    match fault {
        DataFault::BadRow(fault) => Cause::BadRow { row, fault },
        DataFault::Fields(found) => Cause::Fields { row, found },
    }
}
